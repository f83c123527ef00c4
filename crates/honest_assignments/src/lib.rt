// 01, Runs and views: an assignment of the original on numbers, with the numbers of the variables that it makes.
#![tactic(auto)]

ghost use Rattle.std.specs.Prelude.{◌≡◌, ◌<◌, ◌≤◌};
ghost use Rattle.kit.specs.Names.{cond, not, none, set};
ghost use Rattle.definitions.specs.ContractFile.{field_at, is_everyone, node_count};
ghost use Rattle.definitions.specs.Owners.{name_of, place_owner};
ghost use Rattle.definitions.specs.Original.{position};
ghost use Rattle.file_accepted.specs.Context.{fields_in, scope_in};
ghost use Rattle.rewrite_plans.specs.Plans.{node_expression};
ghost use Rattle.honest_values.specs.Values.{value_of};
ghost use Rattle.honest_supplies.specs.Supplies.{supplied_number, Wrote};
ghost use Rattle.honest_assignments.specs.Assigned.{field_events, entry_events, FieldReady, EntryReady};

use file_accepted::CheckedFunction;
use file_bytes::Node;
use file_kinds::EVERYONE_BYTE;
use honest_supplies::{Placing, Turn, body_slots, place_slots};
use honest_values::value;
use ledger_places::{position, put_number};
use rewrite_owners::{NO_NAME, field_owner, name_code, place_code};

// A number is put at a place where the branch is taken.
fn put_taken(numbers: &mut [u32], taken: bool, p: usize, value: u32)
    ensures { numbers.new ≡ cond taken (set numbers.old p value) numbers.old }
{
    if taken {
        put_number(numbers, p, value);
    }
}

fn is_private_field(function: &CheckedFunction, f: usize) -> bool
    requires { f ≤ 255 }
    ensures { result ≡ not (is_everyone (place_owner (field_at (fields_in function.now.file.now) f).owner none)) }
{
    place_code(field_owner(function.file, f), NO_NAME) != EVERYONE_BYTE
}

fn is_private_entry(function: &CheckedFunction, f: usize, key: usize) -> bool
    requires { (f ≤ 255) × (key < node_count function.now.file.now) }
    ensures { result ≡ not (is_everyone (place_owner (field_at (fields_in function.now.file.now) f).owner
        (name_of (scope_in function.now.file.now function.now.at) (node_expression function.now.file.now key)))) }
{
    let owner = field_owner(function.file, f);
    place_code(owner, name_code(function, key)) != EVERYONE_BYTE
}

// The field of a node takes a value.
pub fn field_slots(
    function: &CheckedFunction,
    numbers: &mut [u32],
    arguments: &[u32],
    turn: Turn,
    node: Node,
    out: &mut [u64],
    i: usize,
) -> usize
    requires { FieldReady function.now.file.now function.now.at node.arg node.first out.old i }
    ensures { (numbers.new ≡ cond turn.live
        (set numbers.old
        (position (fields_in function.now.file.now) node.arg 0)
        (value_of function.now.file.now arguments.now turn.caller numbers.old
        (node_expression function.now.file.now node.first)))
        numbers.old)
        × (Wrote (supplied_number function.now.file.now arguments.now turn.caller turn.live numbers.old)
        out.old out.new i result (field_events function.now.file.now function.now.at node.arg node.first)) }
{
    let private = is_private_field(function, node.arg);
    let end = place_slots(
        function,
        numbers,
        arguments,
        turn,
        Placing {
            n: node.first,
            private,
        },
        out,
        i,
    );
    let v = value(function, numbers, arguments, turn.caller, node.first);
    let p = position(function.file, node.arg, 0);
    put_taken(numbers, turn.live, p, v);
    end
}

// The entry of a node's field, at its key, takes a value.
pub fn entry_slots(
    function: &CheckedFunction,
    numbers: &mut [u32],
    arguments: &[u32],
    turn: Turn,
    node: Node,
    out: &mut [u64],
    i: usize,
) -> usize
    requires { EntryReady function.now.file.now function.now.at node.arg node.first node.second out.old i }
    ensures { (numbers.new ≡ cond turn.live
        (set numbers.old
        (position (fields_in function.now.file.now) node.arg
        (value_of function.now.file.now arguments.now turn.caller numbers.old
        (node_expression function.now.file.now node.first)))
        (value_of function.now.file.now arguments.now turn.caller numbers.old
        (node_expression function.now.file.now node.second)))
        numbers.old)
        × (Wrote (supplied_number function.now.file.now arguments.now turn.caller turn.live numbers.old)
        out.old out.new i result
        (entry_events function.now.file.now function.now.at node.arg node.first node.second)) }
{
    let private = is_private_entry(function, node.arg, node.first);
    let j = body_slots(function, numbers, arguments, turn, node.first, out, i);
    let end = place_slots(
        function,
        numbers,
        arguments,
        turn,
        Placing {
            n: node.second,
            private,
        },
        out,
        j,
    );
    let k = value(function, numbers, arguments, turn.caller, node.first);
    let v = value(function, numbers, arguments, turn.caller, node.second);
    let p = position(function.file, node.arg, k as usize);
    put_taken(numbers, turn.live, p, v);
    end
}
