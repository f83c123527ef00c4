// The events of an assignment, logged in their order: the key's, the value's, the supply for a private place.
#![tactic(auto)]

ghost use Rattle.std.specs.Prelude.{◌<◌, ◌≤◌};
ghost use Rattle.definitions.specs.ContractFile.{node_count};
ghost use Rattle.file_accepted.specs.Context.{nodes_in};
ghost use Rattle.rewrite_log.specs.Logs.{Logged};
ghost use Rattle.rewrite_expressions.specs.Translations.{Ready};
ghost use Rattle.rewrite_assignments.specs.Placing.{assign_field_of, assign_entry_of, ReadyToPlace, Placed};

use file_accepted::CheckedFunction;
use file_bytes::Node;
use file_kinds::EVERYONE_CODE;
use rewrite_expressions::{body_log, supply_log};
use rewrite_log::Position;
use rewrite_owners::{field_owner, is_public, name_code, place_code};

// "A public value put into a private place is supplied as a cell of that place's owner code."
pub fn place_log(
    function: &CheckedFunction,
    n: usize,
    owner: usize,
    guard: u16,
    log: &mut [u16],
    p: Position,
) -> Position
    requires { ReadyToPlace function.now.file.now function.now.at n guard owner log.old p }
    ensures { Placed function.now.file.now function.now.at guard n owner log.old log.new p result }
{
    if owner == EVERYONE_CODE {
        return body_log(function, n, guard, log, p);
    }
    if is_public(function, n) {
        return supply_log(function, n, owner, guard, log, p);
    }
    body_log(function, n, guard, log, p)
}

// Field f takes node n.
pub fn assign_field_log(
    function: &CheckedFunction,
    f: usize,
    n: usize,
    guard: u16,
    log: &mut [u16],
    p: Position,
) -> Position
    requires { (f ≤ 255) × (Ready function.now.file.now n log.old p (assign_field_of function.now.file.now function.now.at guard f n)) }
    ensures { Logged (nodes_in function.now.file.now) log.old log.new p result
        (assign_field_of function.now.file.now function.now.at guard f n p.variable) }
{
    let owner = place_code(field_owner(function.file, f), 0) as usize;
    place_log(function, n, owner, guard, log, p)
}

// The entry of mapping f at a key takes a value.
pub fn assign_entry_log(
    function: &CheckedFunction,
    node: Node,
    guard: u16,
    log: &mut [u16],
    p: Position,
) -> Position
    requires { ((node.arg ≤ 255) × (node.second < node_count function.now.file.now)) × (Ready function.now.file.now node.first log.old p
        (assign_entry_of function.now.file.now function.now.at guard node.arg node.first node.second)) }
    ensures { Logged (nodes_in function.now.file.now) log.old log.new p result
        (assign_entry_of function.now.file.now function.now.at guard node.arg node.first node.second p.variable) }
{
    let declared = field_owner(function.file, node.arg);
    let name = name_code(function, node.first);
    let owner = place_code(declared, name) as usize;
    let q = body_log(function, node.first, guard, log, p);
    place_log(function, node.second, owner, guard, log, q)
}
