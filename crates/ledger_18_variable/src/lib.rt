// "each item .. has the type": one variable, by the event that made it.
#![tactic(auto)]

ghost use Rattle.std.specs.Prelude.{◌≡◌};
ghost use Rattle.kit.specs.Names.{cond, eqb};
ghost use Rattle.definitions.specs.ContractFile.{boolean, data_type_of, type_of};
ghost use Rattle.theory_trees.specs.Trees.{expression_in};
ghost use Rattle.file_accepted.specs.Context.{nodes_in, scope_in};
ghost use Rattle.ledger_readers.specs.Readers.{reader_of_code};
ghost use Rattle.ledger_18_variable.specs.Variables.{code_reader};

use file_accepted::CheckedFunction;
use file_bytes::two_bytes_at;
use file_kinds::*;
use ledger_readers::Reader;
use ledger_types::type_code;
use rewrite_log::GUARD_LOGGED;

// Code 0 is everyone's; addresses stand at the other codes.
pub fn code_reader(addresses: &[u32], code: usize) -> Reader
    ensures { reader_of_code result ≡ code_reader addresses.now code }
{
    if code == EVERYONE_CODE {
        Reader::Anyone
    } else {
        Reader::Only(ledger_places::number_at(addresses, code))
    }
}

// The type code of an entry's variable: a guard is a bool.
pub fn entry_type(function: &CheckedFunction, tag: u16, node: usize) -> usize
    ensures { data_type_of result ≡ cond (eqb tag 3)
        boolean
        (type_of (scope_in function.now.file.now function.now.at) (expression_in (nodes_in function.now.file.now) node)) }
{
    if tag == GUARD_LOGGED {
        return BOOL;
    }
    if node < function.source.len() / 5 {
        type_code(function, node)
    } else {
        ADDRESS
    }
}
