// Whether the parameters of a ledger's last call have the types and the owners that the file asks.
#![tactic(auto)]

ghost use Rattle.std.specs.Prelude.{◌≡◌, ◌&&◌, ◌≤◌};
ghost use Rattle.kit.specs.Names.{not, cond, eqb};
ghost use Rattle.definitions.specs.ContractFile.{byte_at};
ghost use Rattle.definitions.specs.Original.{anyone, only};
ghost use Rattle.definitions.specs.Ledger.{fits, all_fit};
ghost use Rattle.file_accepted.specs.Context.{parameters_in};
ghost use Rattle.ledger_contents.specs.Contents.{contents_of};
ghost use Rattle.ledger_readers.specs.Readers.{reader_of_code};
ghost use Rattle.ledger_18_parameters.specs.Parameters.{forms_of_parameters};

use file_bytes::byte_at;
use file_kinds::EVERYONE_CODE;
use ledger_readers::Reader;

// A private parameter is a cell of the caller's.
fn parameter_reader(owner: usize, caller: u8) -> Reader
    ensures { reader_of_code result ≡ cond (not (eqb owner 0)) (only caller) anyone }
{
    if owner == EVERYONE_CODE {
        Reader::Anyone
    } else {
        Reader::Only(caller as u32)
    }
}

// A failed call shows no private parameter.
fn is_hidden(all: bool, owner: usize) -> bool
    ensures { result ≡ (not (eqb owner 0) && not all) }
{
    if owner == EVERYONE_CODE { false } else { !all }
}

// All parameters of the function that begins at a place, or the public ones alone.
pub fn parameters_fit(file: &[u8], function_at: usize, caller: u8, all: bool, flat: &[u32]) -> bool
    requires { (function_at ≤ 200000) × (byte_at file.now function_at ≤ 8) }
    ensures { result ≡ all_fit fits (forms_of_parameters all caller (parameters_in file.now function_at))
        (contents_of flat.now) }
{
    let count = byte_at(file, function_at);
    let mut p: usize = 0;
    for k in 0..count {
        let owner = byte_at(file, function_at + 1 + 2 * k + 1);
        if is_hidden(all, owner) {
            continue;
        }
        let code = ledger_types::parameter_type(file, function_at, k);
        let reader = parameter_reader(owner, caller);
        if !ledger_18_forms::fits_at(flat, p, code, reader) {
            return false;
        }
        p += 1;
    }
    flat.len() / 5 <= p
}
