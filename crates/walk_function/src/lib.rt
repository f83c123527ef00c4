// 01, Runs and views: "A call walks the function's written body on the ledger's plain values and cells": the body is written to lent
// memory, and walked from there.
#![tactic(auto)]

ghost use Rattle.std.specs.Prelude.{◌*◌, ◌-◌};
ghost use Rattle.kit.specs.Names.{take};
ghost use Rattle.definitions.specs.Ledger.{walk_completes, state_after};
ghost use Rattle.file_accepted.specs.Context.{fields_in};
ghost use Rattle.ledger_contents.specs.Contents.{contents_of};
ghost use Rattle.write_trees.specs.Trees.{command_in};
ghost use Rattle.write_trees.specs.Table.{table_of};
ghost use Rattle.ledger_circuits.specs.Circuits.{address_from, constraints_from};
ghost use Rattle.walk_expressions.specs.Evaluation.{state_of};
ghost use Rattle.walk_steps.specs.Walk.{after_from, completes_from, Ran};
ghost use Rattle.walk_narrow_trees.specs.Narrow.{Bytes};
ghost use Rattle.write_function_room.specs.Functions.{written_in};
ghost use Rattle.walk_function.specs.Walks.{LastReady, WalkReady};

use file_accepted::CheckedFunction;
use file_bytes::byte_at;
use rewrite_statements::function_log;
use walk_commands::run;
use walk_function_nodes::{Extent, Logged, put_function};
use write_extents::numbers_of;
use write_parameters::count_private;

// The command whose root is the last of so many nodes, with so many constraints. That the file holds bytes, a parameter's type tells here,
// and that of a struct's field does not above.
fn run_last(
    nodes: &[u8],
    extent: Extent,
    numbers: &[u16],
    file: &[u8],
    addresses: &[u32],
    parameters: &[u32],
    places: &mut [u32],
    variables: &mut [u32],
) -> bool
    requires { Bytes file.now → LastReady nodes.now extent.nodes numbers.now extent.constraints file.now }
    ensures bytes { Bytes file.now }
    ensures ran { Ran (completes_from file.now addresses.now parameters.now
        (constraints_from (table_of (take (8 * extent.nodes) nodes.now))
        (take (4 * extent.constraints) numbers.now))
        (state_of places.old variables.old)
        (command_in (table_of (take (8 * extent.nodes) nodes.now)) (extent.nodes - 1)))
        (after_from file.now addresses.now parameters.now
        (state_of places.old variables.old)
        (command_in (table_of (take (8 * extent.nodes) nodes.now)) (extent.nodes - 1)))
        (state_of places.new variables.new) result }
{
    let count = extent.nodes;
    let constraints = extent.constraints;
    let end = 8 * count;
    let last = numbers_of(constraints);
    run(
        &nodes[..end],
        file,
        addresses,
        &numbers[..last],
        parameters,
        places,
        variables,
        count - 1,
    )
}

// A function of an accepted contract. Where the answer is false the contents are to be given up; all other lent memory is scratch space.
pub fn walk_function(
    function: &CheckedFunction,
    addresses: &[u32],
    log: &mut [u16],
    numbers: &mut [u16],
    roots: &mut [u16],
    nodes: &mut [u8],
    parameters: &[u32],
    places: &mut [u32],
    variables: &mut [u32],
) -> bool
    requires { WalkReady function.now.file.now function.now.at log.old numbers.old roots.old nodes.old }
    ensures { Ran (walk_completes (address_from addresses.now) (fields_in function.now.file.now)
        (contents_of parameters.now) (written_in function.now.file.now function.now.at).constraints
        (state_of places.old variables.old) (written_in function.now.file.now function.now.at).body)
        (state_after (address_from addresses.now) (fields_in function.now.file.now) (contents_of parameters.now)
        (state_of places.old variables.old) (written_in function.now.file.now function.now.at).body)
        (state_of places.new variables.new) result }
{
    let count = byte_at(function.file, function.at);
    let private = count_private(function.file, function.at + 1, count);
    let end = function_log(function, private, log);
    let entries = end.at / 5;
    let extent = put_function(
        function,
        log,
        Logged { entries, private },
        numbers,
        roots,
        nodes,
    );
    run_last(
        nodes,
        extent,
        numbers,
        function.file,
        addresses,
        parameters,
        places,
        variables,
    )
}
