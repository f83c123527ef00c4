// What rewriting does with a node: whether it is supplied in the body, read in a circuit, and which parts it has.
#![tactic(auto)]

ghost use Rattle.std.specs.Prelude.{◌≡◌, ◌&&◌, ◌<◌};
ghost use Rattle.kit.specs.Names.{cond, eqb};
ghost use Rattle.definitions.specs.ContractFile.{is_division, node_count, operator_of};
ghost use Rattle.definitions.specs.Owners.{is_public};
ghost use Rattle.file_accepted.specs.Context.{scope_in};
ghost use Rattle.rewrite_plans.specs.Plans.{node_expression, SuppliedCode, ReadCode, PartsOf};

use file_accepted::CheckedFunction;
use file_decoded::node_at;
use file_kinds::*;
use rewrite_owners::owner_code;
use rules_codes::is_division;

// How many parts a node has, and their numbers.
#[derive(Clone, Copy)]
pub struct Parts {
    pub count: usize,
    pub first: usize,
    pub second: usize,
}

// 2 for a private operator or not, which is supplied for the caller; 0 for a public one.
fn private_code(owner: u8) -> usize
    ensures { result ≡ cond (eqb owner 0) 0 2 }
{
    if owner == EVERYONE_BYTE { 0 } else { 2 }
}

// The owner is asked for where it decides: it is found by going through the parts.
// 1 for a public division, which a circuit reads; 0 for any other operator.
fn division_code(function: &CheckedFunction, n: usize, operator: u16) -> usize
    requires { n < node_count function.now.file.now }
    ensures { result ≡ cond (is_public (scope_in function.now.file.now function.now.at) (node_expression function.now.file.now n)
        && is_division (operator_of operator)) 1 0 }
{
    if is_division(operator) {
        if owner_code(function, n) == EVERYONE_BYTE {
            1
        } else {
            0
        }
    } else {
        0
    }
}

// 0 where the body keeps node n; otherwise 1 + the code of the owner that it is supplied for.
pub fn supplied_code(function: &CheckedFunction, n: usize) -> usize
    requires { n < node_count function.now.file.now }
    ensures { SuppliedCode (scope_in function.now.file.now function.now.at) (node_expression function.now.file.now n) result }
{
    let node = node_at(function.source, n);
    let kind = node.kind;
    match kind {
        OPERATOR => private_code(owner_code(function, n)),
        NOT => private_code(owner_code(function, n)),
        REVEAL => owner_code(function, n) as usize + 1,
        _ => 0,
    }
}

// 0 where a circuit keeps node n; otherwise 1 + the code of the owner that it is read of.
pub fn read_code(function: &CheckedFunction, n: usize) -> usize
    requires { n < node_count function.now.file.now }
    ensures { ReadCode (scope_in function.now.file.now function.now.at) (node_expression function.now.file.now n) result }
{
    let node = node_at(function.source, n);
    let kind = node.kind;
    match kind {
        FIELD => owner_code(function, n) as usize + 1,
        ENTRY => owner_code(function, n) as usize + 1,
        PARAMETER => owner_code(function, n) as usize + 1,
        OPERATOR => division_code(function, n, node.arg as u16),
        _ => 0,
    }
}

// The parts that rewriting goes into, the same for body and circuit.
pub fn parts_of(function: &CheckedFunction, n: usize) -> Parts
    requires { n < node_count function.now.file.now }
    ensures { PartsOf function.now.file.now n result }
{
    let node = node_at(function.source, n);
    let kind = node.kind;
    let count = match kind {
        ENTRY => 1,
        OPERATOR => 2,
        NOT => 1,
        REVEAL => 1,
        _ => 0,
    };
    Parts {
        count,
        first: node.first,
        second: node.second,
    }
}
