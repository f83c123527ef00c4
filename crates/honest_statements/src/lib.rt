// 01, Runs and views: "An honest supplied variable holds what the original works out for its expression .. in an untaken branch it stays
// plain 0." The original's statements on lent numbers, with one number for each variable that rewriting makes of them.
#![tactic(auto)]

ghost use Rattle.std.specs.Prelude.{◌≡◌, ◌&&◌, ◌<◌};
ghost use Rattle.kit.specs.Names.{not};
ghost use Rattle.definitions.specs.ContractFile.{node_count};
ghost use Rattle.rewrite_plans.specs.Plans.{node_expression};
ghost use Rattle.honest_values.specs.Values.{kind_at};
ghost use Rattle.honest_statements.specs.Honest.{is_taken, branch_numbers, honest_numbers, branches_numbers, node_statement, SimpleKind};
ghost use Rattle.honest_statements.specs.Honest.{Startable, Honest, BranchHonest, BranchesHonest};

use file_accepted::CheckedFunction;
use file_decoded::node_at;
use file_kinds::*;
use honest_assignments::{entry_slots, field_slots};
use honest_supplies::{Turn, body_slots, put_slot};
use honest_values::value;

fn both(live: bool, taken: bool) -> bool
    ensures { result ≡ (live && taken) }
{
    if live { taken } else { false }
}

fn only(live: bool, taken: bool) -> bool
    ensures { result ≡ (live && not taken) }
{
    if live { !taken } else { false }
}

// Whether node n is true.
fn is_taken(
    function: &CheckedFunction,
    numbers: &[u32],
    arguments: &[u32],
    caller: u8,
    n: usize,
) -> bool
    requires { n < node_count function.now.file.now }
    ensures { result ≡ is_taken function.now.file.now function.now.at arguments.now caller numbers.now
        (node_expression function.now.file.now n) }
{
    value(function, numbers, arguments, caller, n) != 0
}

// A statement that holds no other: an assignment, a require or a skip.
fn simple_slots(
    function: &CheckedFunction,
    numbers: &mut [u32],
    arguments: &[u32],
    turn: Turn,
    n: usize,
    out: &mut [u64],
    i: usize,
) -> usize
    requires { (SimpleKind (kind_at function.now.source.now n)) × (Startable function.now.file.now n out.old i
        (honest_numbers function.now.file.now function.now.at arguments.now turn.caller (node_statement function.now.file.now n)
        turn.live numbers.old)) }
    ensures { Honest function.now.file.now function.now.at arguments.now turn.caller turn.live
        (node_statement function.now.file.now n) numbers.old numbers.new out.old out.new i result }
{
    let node = node_at(function.source, n);
    let kind = node.kind;
    match kind {
        FIELD_TAKES => field_slots(function, numbers, arguments, turn, node, out, i),
        ENTRY_TAKES => entry_slots(function, numbers, arguments, turn, node, out, i),
        REQUIRE => body_slots(function, numbers, arguments, turn, node.first, out, i),
        _ => i,
    }
}

// Statement n, worked out where it is turn.live.
#[cycle(branch_slots_branches_slots_conditional_slots_sequence_slots_statement_slots)]
pub fn statement_slots(
    function: &CheckedFunction,
    numbers: &mut [u32],
    arguments: &[u32],
    turn: Turn,
    n: usize,
    out: &mut [u64],
    i: usize,
) -> usize
    requires { Startable function.now.file.now n out.old i
        (honest_numbers function.now.file.now function.now.at arguments.now turn.caller (node_statement function.now.file.now n)
        turn.live numbers.old) }
    ensures { Honest function.now.file.now function.now.at arguments.now turn.caller turn.live
        (node_statement function.now.file.now n) numbers.old numbers.new out.old out.new i result }
{
    let kind = node_at(function.source, n).kind;
    match kind {
        SEQUENCE => sequence_slots(function, numbers, arguments, turn, n, out, i),
        IF => conditional_slots(function, numbers, arguments, turn, n, out, i),
        _ => simple_slots(function, numbers, arguments, turn, n, out, i),
    }
}

// The second of two statements is worked out on what the first left.
#[cycle(branch_slots_branches_slots_conditional_slots_sequence_slots_statement_slots)]
fn sequence_slots(
    function: &CheckedFunction,
    numbers: &mut [u32],
    arguments: &[u32],
    turn: Turn,
    n: usize,
    out: &mut [u64],
    i: usize,
) -> usize
    requires { (kind_at function.now.source.now n ≡ 17) × (Startable function.now.file.now n out.old i
        (honest_numbers function.now.file.now function.now.at arguments.now turn.caller (node_statement function.now.file.now n)
        turn.live numbers.old)) }
    ensures { Honest function.now.file.now function.now.at arguments.now turn.caller turn.live
        (node_statement function.now.file.now n) numbers.old numbers.new out.old out.new i result }
{
    let node = node_at(function.source, n);
    let j = statement_slots(function, numbers, arguments, turn, node.first, out, i);
    statement_slots(function, numbers, arguments, turn, node.second, out, j)
}

// A condition, and then both branches.
#[cycle(branch_slots_branches_slots_conditional_slots_sequence_slots_statement_slots)]
fn conditional_slots(
    function: &CheckedFunction,
    numbers: &mut [u32],
    arguments: &[u32],
    turn: Turn,
    n: usize,
    out: &mut [u64],
    i: usize,
) -> usize
    requires { (kind_at function.now.source.now n ≡ 21) × (Startable function.now.file.now n out.old i
        (honest_numbers function.now.file.now function.now.at arguments.now turn.caller (node_statement function.now.file.now n)
        turn.live numbers.old)) }
    ensures { Honest function.now.file.now function.now.at arguments.now turn.caller turn.live
        (node_statement function.now.file.now n) numbers.old numbers.new out.old out.new i result }
{
    let first = node_at(function.source, n).first;
    let j = body_slots(function, numbers, arguments, turn, first, out, i);
    branches_slots(function, numbers, arguments, turn, n, out, j)
}

// Of the two branches of conditional n at most one is taken.
#[cycle(branch_slots_branches_slots_conditional_slots_sequence_slots_statement_slots)]
fn branches_slots(
    function: &CheckedFunction,
    numbers: &mut [u32],
    arguments: &[u32],
    turn: Turn,
    n: usize,
    out: &mut [u64],
    i: usize,
) -> usize
    requires { (kind_at function.now.source.now n ≡ 21) × (Startable function.now.file.now n out.old i
        (branches_numbers function.now.file.now function.now.at arguments.now turn.caller (node_statement function.now.file.now n)
        turn.live numbers.old)) }
    ensures { BranchesHonest function.now.file.now function.now.at arguments.now turn.caller turn.live
        (node_statement function.now.file.now n) numbers.old numbers.new out.old out.new i result }
{
    let node = node_at(function.source, n);
    let taken = is_taken(function, numbers, arguments, turn.caller, node.first);
    let k = branch_slots(
        function,
        numbers,
        arguments,
        Turn {
            caller: turn.caller,
            live: both(turn.live, taken),
        },
        node.second,
        out,
        i,
    );
    branch_slots(
        function,
        numbers,
        arguments,
        Turn {
            caller: turn.caller,
            live: only(turn.live, taken),
        },
        node.third,
        out,
        k,
    )
}

// A branch begins with its guard.
#[cycle(branch_slots_branches_slots_conditional_slots_sequence_slots_statement_slots)]
fn branch_slots(
    function: &CheckedFunction,
    numbers: &mut [u32],
    arguments: &[u32],
    turn: Turn,
    n: usize,
    out: &mut [u64],
    i: usize,
) -> usize
    requires { Startable function.now.file.now n out.old i (branch_numbers
        (honest_numbers function.now.file.now function.now.at arguments.now turn.caller (node_statement function.now.file.now n)
        turn.live numbers.old)) }
    ensures { BranchHonest function.now.file.now function.now.at arguments.now turn.caller turn.live
        (node_statement function.now.file.now n) numbers.old numbers.new out.old out.new i result }
{
    put_slot(out, i, 0);
    statement_slots(function, numbers, arguments, turn, n, out, i + 1)
}
