// 01, Runs and views: the nodes of one written function, numbered from 0, and its constraints as flat numbers, for a call to walk.
#![tactic(auto)]

ghost use Rattle.std.specs.Prelude.{◌≡◌, ◌*◌, ◌≤◌};
ghost use Rattle.kit.specs.Names.{length};
ghost use Rattle.memory_buffer.specs.Buffer.{stored};
ghost use Rattle.write_function_room.specs.Functions.{written_in};
ghost use Rattle.walk_function_nodes.specs.Functions.{opening_numbers, ConstraintsReady, ConstraintsPut, FunctionReady, FunctionPut};

use file_accepted::CheckedFunction;
use file_kinds::{CALLER_CODE_SHORT, OPENS_SHORT};
use write_circuits::{Circuits, put_circuits, put_four};
use write_function_bodies::{Plan, write_function_body};
use write_places::Run;

// How many nodes were written, and how many constraints were noted.
#[derive(Clone, Copy)]
pub struct Extent {
    pub nodes: usize,
    pub constraints: usize,
}

// Of one function: how many entries the log of its body has, and how many of its parameters are private.
#[derive(Clone, Copy)]
pub struct Logged {
    pub entries: usize,
    pub private: usize,
}

// The constraints of so many private parameters, each ".. that it opens for the caller":
// no guard, the caller's owner code, 65,535 for "opens".
fn put_openings(numbers: &mut [u16], private: usize)
    requires { (private ≤ 8) × (4 * private ≤ length numbers.old) }
    ensures { numbers.new ≡ stored numbers.old 0 (opening_numbers 0 private) }
{
    for i in 0..private {
        put_four(numbers, 4 * i, 0, i as u16, CALLER_CODE_SHORT, OPENS_SHORT);
    }
}

// A function's constraints: those of its private parameters, then those that the log of its body's events claims, with their circuits.
fn put_constraints(
    function: &CheckedFunction,
    log: &[u16],
    logged: Logged,
    numbers: &mut [u16],
    out: &mut [u8],
) -> Circuits
    requires { ConstraintsReady function.now.file.now function.now.at log.now logged.entries logged.private
        numbers.old out.old }
    ensures { ConstraintsPut (written_in function.now.file.now function.now.at) logged.private
        numbers.old numbers.new out.old out.new result }
{
    let entries = logged.entries;
    let private = logged.private;
    put_openings(numbers, private);
    put_circuits(
        function,
        log,
        Run {
            from: 0,
            left: entries,
            noted: 4 * private,
            at: 0,
            base: 0,
        },
        numbers,
        out,
    )
}

// The nodes of a function, and its constraints; `roots` is scratch space.
pub fn put_function(
    function: &CheckedFunction,
    log: &[u16],
    logged: Logged,
    numbers: &mut [u16],
    roots: &mut [u16],
    out: &mut [u8],
) -> Extent
    requires { FunctionReady function.now.file.now function.now.at log.now logged.entries logged.private
        numbers.old roots.old out.old }
    ensures { FunctionPut (written_in function.now.file.now function.now.at) numbers.old numbers.new
        out.old out.new result }
{
    let private = logged.private;
    let circuits = put_constraints(function, log, logged, numbers, out);
    let nodes = circuits.nodes;
    let count = private + circuits.count;
    let body = write_function_body(
        function,
        Plan {
            private,
            verified: 0 < count,
            at: 8 * nodes,
            base: nodes,
        },
        log,
        roots,
        out,
    );
    Extent {
        nodes: nodes + body,
        constraints: count,
    }
}
