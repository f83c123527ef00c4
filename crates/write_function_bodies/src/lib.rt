// 01, Rewriting: "First, each private parameter is read", the body of a function, and the verify that ends it.
#![tactic(auto)]

ghost use Rattle.std.specs.Prelude.{◌+◌, ◌*◌, ◌≤◌};
ghost use Rattle.definitions.specs.Rewriting.{command_tree};
ghost use Rattle.write_nodes.specs.Numbering.{Numbered};
ghost use Rattle.write_steps.specs.Steps.{StepsRoom, StepsPut};
ghost use Rattle.write_function_room.specs.Functions.{written_in};
ghost use Rattle.write_bodies.specs.Bodies.{PassageReady, BodyReady};
ghost use Rattle.write_bodies.specs.Parts.{opening_steps, passage_tree};

use file_accepted::CheckedFunction;
use file_bytes::{byte_at, function_end, two_bytes_at};
use file_kinds::*;
use memory_buffer::put_number;
use rewrite_log::Position;
use write_bodies::write_statement;
use write_nodes::{put_above_two, put_leaf, put_setting};
use write_places::Spot;
use write_steps::{Steps, close_steps};

// The body of a function: how many of its parameters are private, whether a verify ends it, and the place and the number of its first
// node.
#[derive(Clone, Copy)]
pub struct Plan {
    pub private: usize,
    pub verified: bool,
    pub at: usize,
    pub base: usize,
}

// The parameters that are left: where they stand in the file and how many, the number of the first one and of the first variable, and the
// place and the number of the next node.
#[derive(Clone, Copy)]
pub struct ParametersLeft {
    pub place: usize,
    pub left: usize,
    pub k: usize,
    pub i: usize,
    pub at: usize,
    pub base: usize,
}

// "First, each private parameter is read": the steps of the parameters from number k on, which stand in the file from a place on; the
// first variable is number i.
pub fn put_openings(file: &[u8], rest: ParametersLeft, roots: &mut [u16], out: &mut [u8]) -> Steps
    requires { (rest.k + rest.left ≤ 8)
        × ((rest.i ≤ rest.k)
        × ((rest.place + 2 * rest.left ≤ 1000000)
        × (StepsRoom out.old roots.old rest.at rest.base rest.i
        (opening_steps file.now rest.place rest.left rest.k rest.i)))) }
    ensures { StepsPut out.old out.new roots.old roots.new
        rest.at rest.base rest.i
        (opening_steps file.now rest.place rest.left rest.k rest.i) result }
{
    let place = rest.place;
    let left = rest.left;
    let k = rest.k;
    let i = rest.i;
    let at = rest.at;
    let base = rest.base;
    if left == 0 {
        return Steps { count: 0, nodes: 0 };
    }
    let next = place + 2;
    if byte_at(file, place + 1) == 0 {
        return put_openings(
            file,
            ParametersLeft {
                place: next,
                left: left - 1,
                k: k + 1,
                i,
                at,
                base,
            },
            roots,
            out,
        );
    }
    put_leaf(PARAMETER_BYTE, k as u8, 0, 0, out, at);
    put_setting(i, 1, out, at, base);
    put_number(roots, i, (base + 1) as u16);
    let later = put_openings(
        file,
        ParametersLeft {
            place: next,
            left: left - 1,
            k: k + 1,
            i: i + 1,
            at: at + 16,
            base: base + 2,
        },
        roots,
        out,
    );
    Steps {
        count: later.count + 1,
        nodes: 2 + later.nodes,
    }
}

// "A verify ends the body if any constraint exists." The log holds the events of the body.
pub fn write_passage(
    function: &CheckedFunction,
    plan: Plan,
    log: &[u16],
    roots: &mut [u16],
    out: &mut [u8],
) -> usize
    requires { PassageReady function.now.file.now function.now.at plan.private plan.verified
        log.now roots.old out.old plan.at plan.base }
    ensures { Numbered out.old out.new plan.at plan.base
        (passage_tree function.now.file.now function.now.at plan.private plan.verified) result }
{
    let private = plan.private;
    let verified = plan.verified;
    let at = plan.at;
    let base = plan.base;
    let root = two_bytes_at(function.file, function_end(function.file, function.at) - 2);
    let start = Position {
        at: 0,
        variable: private,
    };
    let body = write_statement(function, root, log, Spot { p: start, at, base }, roots, out);
    let nodes = body.nodes;
    if verified {
        put_leaf(VERIFY_BYTE, 0, 0, 0, out, at + 8 * nodes);
        put_above_two(SEQUENCE_BYTE, 0, nodes, 1, out, at, base)
    } else {
        nodes
    }
}

// The body of a function, behind the reads of its private parameters.
pub fn write_function_body(
    function: &CheckedFunction,
    plan: Plan,
    log: &[u16],
    roots: &mut [u16],
    out: &mut [u8],
) -> usize
    requires { BodyReady function.now.file.now function.now.at plan.private plan.verified
        log.now roots.old out.old plan.at plan.base }
    ensures { Numbered out.old out.new plan.at plan.base
        (command_tree (written_in function.now.file.now function.now.at).body) result }
{
    let private = plan.private;
    let verified = plan.verified;
    let at = plan.at;
    let base = plan.base;
    let parameters = byte_at(function.file, function.at);
    let opened = put_openings(
        function.file,
        ParametersLeft {
            place: function.at + 1,
            left: parameters,
            k: 0,
            i: 0,
            at,
            base,
        },
        roots,
        out,
    );
    let count = opened.count;
    let place = at + 8 * opened.nodes;
    let number = base + opened.nodes;
    let rest = write_passage(
        function,
        Plan {
            private,
            verified,
            at: place,
            base: number,
        },
        log,
        &mut roots[count..],
        out,
    );
    close_steps(roots, count, number + rest - 1, out, place + 8 * rest);
    opened.nodes + rest + count
}
