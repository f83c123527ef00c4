// 01, Rewriting: one function written, "per function circuits, in constraint order, come before the body", and its heading.
#![tactic(auto)]

ghost use Rattle.definitions.specs.Rewriting.{function_bytes};
ghost use Rattle.memory_append.specs.Append.{Appended};
ghost use Rattle.write_function_room.specs.Functions.{written_in};
ghost use Rattle.write_functions.specs.Writing.{CircuitsReady, CircuitsWritten, HeadingReady, FunctionReady, FunctionWritten};

use file_accepted::CheckedFunction;
use file_bytes::byte_at;
use rewrite_statements::function_log;
use write_circuits::put_circuits;
use write_crossings::count_crossings;
use write_extents::{Extent, is_verified};
use write_function_bodies::{Plan, write_function_body};
use write_headings::append_heading;
use write_parameters::count_private;
use write_places::Run;

// A function once it is written: how far it reaches, and how many crossings it has.
#[derive(Clone, Copy)]
pub struct Finished {
    pub extent: Extent,
    pub crossings: u16,
}

// How many private parameters there are, where the log of the body's events ends, how many variables they make, how many
// constraints they claim, and how many nodes the circuits have.
#[derive(Clone, Copy)]
pub struct Parts {
    pub private: usize,
    pub logged: usize,
    pub made: usize,
    pub claims: usize,
    pub nodes: usize,
}

// Where a function's heading goes, and the number of its first node.
#[derive(Clone, Copy)]
pub struct Start {
    pub from: usize,
    pub base: usize,
}

// The same of the function that begins at a place, and how many nodes it has.
#[derive(Clone, Copy)]
pub struct HeadingPlace {
    pub function_at: usize,
    pub from: usize,
    pub base: usize,
    pub total: usize,
}

// The log of the body's events, the circuits of its claims as nodes, and the claims' numbers.
fn write_circuits(
    function: &CheckedFunction,
    log: &mut [u16],
    numbers: &mut [u16],
    out: &mut [u8],
    base: usize,
) -> Parts
    requires { CircuitsReady function.now.file.now function.now.at log.old numbers.old out.old base }
    ensures { CircuitsWritten function.now.file.now function.now.at log.new numbers.new
        out.old out.new base result }
{
    let parameters = byte_at(function.file, function.at);
    let private = count_private(function.file, function.at + 1, parameters);
    let end = function_log(function, private, log);
    let circuits = put_circuits(
        function,
        log,
        Run {
            from: 0,
            left: end.at / 5,
            noted: 0,
            at: 8 * base,
            base,
        },
        numbers,
        out,
    );
    Parts {
        private,
        logged: end.at,
        made: end.variable - private,
        claims: circuits.count,
        nodes: circuits.nodes,
    }
}

// The heading of a function whose nodes are `total`, the first of them number `base`.
fn write_heading(
    file: &[u8],
    log: &[u16],
    numbers: &[u16],
    headings: &mut [u8],
    place: HeadingPlace,
    parts: Parts,
) -> usize
    requires { HeadingReady file.now place.function_at log.now numbers.now headings.old
        place.from parts place.base place.total }
    ensures { Appended headings.old headings.new place.from
        (function_bytes place.base (written_in file.now place.function_at)) result }
{
    let function_at = place.function_at;
    let from = place.from;
    let base = place.base;
    let total = place.total;
    let logged = parts.logged;
    let fours = 4 * parts.claims;
    append_heading(
        file,
        function_at,
        parts.made,
        &log[..logged],
        &numbers[..fours],
        base + total - 1,
        headings,
        from,
    )
}

// The nodes of the function go behind the `base` nodes that are there, and its heading stands from place
// `from` on. The first three buffers are scratch space.
pub fn write_function(
    function: &CheckedFunction,
    start: Start,
    log: &mut [u16],
    roots: &mut [u16],
    numbers: &mut [u16],
    headings: &mut [u8],
    nodes: &mut [u8],
) -> Finished
    requires { FunctionReady function.now.file.now function.now.at log.old roots.old numbers.old
        headings.old start.from nodes.old start.base }
    ensures { FunctionWritten function.now.file.now function.now.at headings.old headings.new start.from
        nodes.old nodes.new start.base result }
{
    let from = start.from;
    let base = start.base;
    let parts = write_circuits(function, log, numbers, nodes, base);
    let verified = is_verified(parts.private + parts.claims);
    let first = base + parts.nodes;
    let body = write_function_body(
        function,
        Plan {
            private: parts.private,
            verified,
            at: 8 * first,
            base: first,
        },
        log,
        roots,
        nodes,
    );
    let total = parts.nodes + body;
    let end = write_heading(
        function.file,
        log,
        numbers,
        headings,
        HeadingPlace {
            function_at: function.at,
            from,
            base,
            total,
        },
        parts,
    );
    let logged = parts.logged;
    let crossings = count_crossings(parts.private, &log[..logged]);
    Finished {
        extent: Extent { end, nodes: total },
        crossings,
    }
}
