// 01, Runs and views: "An honest supplied variable holds what the original works out for its expression". One number a variable:
// one more than the value of a supplied one, and 0 for any other, and for all where the branch is not taken.
#![tactic(auto)]

ghost use Rattle.std.specs.Prelude.{◌≡◌, ◌∷◌, ◌<◌};
ghost use Rattle.kit.specs.Names.{cond, [], suc, length};
ghost use Rattle.definitions.specs.ContractFile.{node_count};
ghost use Rattle.memory_buffer.specs.Buffer.{stored};
ghost use Rattle.rewrite_plans.specs.Plans.{node_expression};
ghost use Rattle.honest_values.specs.Values.{value_of};
ghost use Rattle.honest_supplies.specs.Supplies.{Ready, Wrote, supplied_number, body_in, circuit_in, supply_in, body_parts_in};
ghost use Rattle.honest_supplies.specs.Supplies.{circuit_parts_in, placed_in};

use file_accepted::CheckedFunction;
use honest_values::value;
use rewrite_owners::is_public;
use rewrite_plans::{parts_of, read_code, supplied_code};

// Who calls, and whether what is worked out lies in a branch that is taken.
#[derive(Clone, Copy)]
pub struct Turn {
    pub caller: u8,
    pub live: bool,
}

// One supplied value noted at its number.
pub fn put_slot(out: &mut [u64], i: usize, value: u64)
    requires { i < length out.old }
    ensures { out.new ≡ stored out.old i (value ∷ []) }
{
    out[i] = value;
}

// One more than the value of node n where the branch is taken.
fn supplied_number(
    function: &CheckedFunction,
    numbers: &[u32],
    arguments: &[u32],
    turn: Turn,
    n: usize,
) -> u64
    requires { n < node_count function.now.file.now }
    ensures { result ≡ cond turn.live
        (suc (value_of function.now.file.now arguments.now turn.caller numbers.now
        (node_expression function.now.file.now n)))
        0 }
{
    if turn.live {
        value(function, numbers, arguments, turn.caller, n) as u64 + 1
    } else {
        0
    }
}

// The variables that the body's form of node n makes.
#[cycle(body_parts_body_slots_circuit_parts_circuit_slots_supply_slots)]
pub fn body_slots(
    function: &CheckedFunction,
    numbers: &[u32],
    arguments: &[u32],
    turn: Turn,
    n: usize,
    out: &mut [u64],
    i: usize,
) -> usize
    requires { Ready function.now.file.now n out.old i (body_in function.now.file.now function.now.at n) }
    ensures { Wrote (supplied_number function.now.file.now arguments.now turn.caller turn.live numbers.now)
        out.old out.new i result (body_in function.now.file.now function.now.at n) }
{
    if supplied_code(function, n) == 0 {
        body_parts(function, numbers, arguments, turn, n, out, i)
    } else {
        supply_slots(function, numbers, arguments, turn, n, out, i)
    }
}

// The variable that node n is supplied in, and those of its circuit.
#[cycle(body_parts_body_slots_circuit_parts_circuit_slots_supply_slots)]
pub fn supply_slots(
    function: &CheckedFunction,
    numbers: &[u32],
    arguments: &[u32],
    turn: Turn,
    n: usize,
    out: &mut [u64],
    i: usize,
) -> usize
    requires { Ready function.now.file.now n out.old i (supply_in function.now.file.now function.now.at n) }
    ensures { Wrote (supplied_number function.now.file.now arguments.now turn.caller turn.live numbers.now)
        out.old out.new i result (supply_in function.now.file.now function.now.at n) }
{
    let number = supplied_number(function, numbers, arguments, turn, n);
    put_slot(out, i, number);
    circuit_slots(function, numbers, arguments, turn, n, out, i + 1)
}

// The variables that the circuit of node n makes.
#[cycle(body_parts_body_slots_circuit_parts_circuit_slots_supply_slots)]
fn circuit_slots(
    function: &CheckedFunction,
    numbers: &[u32],
    arguments: &[u32],
    turn: Turn,
    n: usize,
    out: &mut [u64],
    i: usize,
) -> usize
    requires { Ready function.now.file.now n out.old i (circuit_in function.now.file.now function.now.at n) }
    ensures { Wrote (supplied_number function.now.file.now arguments.now turn.caller turn.live numbers.now)
        out.old out.new i result (circuit_in function.now.file.now function.now.at n) }
{
    if read_code(function, n) == 0 {
        circuit_parts(function, numbers, arguments, turn, n, out, i)
    } else {
        let j = body_parts(function, numbers, arguments, turn, n, out, i);
        put_slot(out, j, 0);
        j + 1
    }
}

#[cycle(body_parts_body_slots_circuit_parts_circuit_slots_supply_slots)]
fn body_parts(
    function: &CheckedFunction,
    numbers: &[u32],
    arguments: &[u32],
    turn: Turn,
    n: usize,
    out: &mut [u64],
    i: usize,
) -> usize
    requires { Ready function.now.file.now n out.old i (body_parts_in function.now.file.now function.now.at n) }
    ensures { Wrote (supplied_number function.now.file.now arguments.now turn.caller turn.live numbers.now)
        out.old out.new i result (body_parts_in function.now.file.now function.now.at n) }
{
    let parts = parts_of(function, n);
    let count = parts.count;
    match count {
        0 => i,
        1 => body_slots(function, numbers, arguments, turn, parts.first, out, i),
        _ => {
            let j = body_slots(function, numbers, arguments, turn, parts.first, out, i);
            body_slots(function, numbers, arguments, turn, parts.second, out, j)
        }
    }
}

#[cycle(body_parts_body_slots_circuit_parts_circuit_slots_supply_slots)]
fn circuit_parts(
    function: &CheckedFunction,
    numbers: &[u32],
    arguments: &[u32],
    turn: Turn,
    n: usize,
    out: &mut [u64],
    i: usize,
) -> usize
    requires { Ready function.now.file.now n out.old i (circuit_parts_in function.now.file.now function.now.at n) }
    ensures { Wrote (supplied_number function.now.file.now arguments.now turn.caller turn.live numbers.now)
        out.old out.new i result (circuit_parts_in function.now.file.now function.now.at n) }
{
    let parts = parts_of(function, n);
    let count = parts.count;
    match count {
        0 => i,
        1 => circuit_slots(function, numbers, arguments, turn, parts.first, out, i),
        _ => {
            let j = circuit_slots(function, numbers, arguments, turn, parts.first, out, i);
            circuit_slots(function, numbers, arguments, turn, parts.second, out, j)
        }
    }
}

// A node that is put into a place, and whether the place is private.
#[derive(Clone, Copy)]
pub struct Placing {
    pub n: usize,
    pub private: bool,
}

// The variables that a node makes when it is put into a place: "A public value put into a private place is supplied".
pub fn place_slots(
    function: &CheckedFunction,
    numbers: &[u32],
    arguments: &[u32],
    turn: Turn,
    placing: Placing,
    out: &mut [u64],
    i: usize,
) -> usize
    requires { Ready function.now.file.now placing.n out.old i
        (placed_in function.now.file.now function.now.at placing.n placing.private) }
    ensures { Wrote (supplied_number function.now.file.now arguments.now turn.caller turn.live numbers.now)
        out.old out.new i result
        (placed_in function.now.file.now function.now.at placing.n placing.private) }
{
    let n = placing.n;
    let private = placing.private;
    if private {
        if is_public(function, n) {
            supply_slots(function, numbers, arguments, turn, n, out, i)
        } else {
            body_slots(function, numbers, arguments, turn, n, out, i)
        }
    } else {
        body_slots(function, numbers, arguments, turn, n, out, i)
    }
}
