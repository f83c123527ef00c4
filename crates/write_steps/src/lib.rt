// 01, Rewriting: steps that set read variables, and the sequences that nest them before a rest.
#![tactic(auto)]

ghost use Rattle.std.specs.Prelude.{◌≡◌, ◌+◌, ◌*◌, ◌<◌, ◌≤◌};
ghost use Rattle.kit.specs.Names.{length, take};
ghost use Rattle.definitions.specs.Basics.{flat_map};
ghost use Rattle.definitions.specs.ContractFile.{node_count};
ghost use Rattle.definitions.specs.Rewriting.{setting, node_bytes};
ghost use Rattle.theory_trees.specs.Trees.{expression_in};
ghost use Rattle.memory_buffer.specs.Buffer.{stored};
ghost use Rattle.file_accepted.specs.Context.{nodes_in, scope_in};
ghost use Rattle.write_variable_counts.specs.Counts.{body_count};
ghost use Rattle.write_nodes.specs.Numbering.{Room, Numbered};
ghost use Rattle.write_reads.specs.Forms.{body_form};
ghost use Rattle.write_steps.specs.Steps.{steps_in, closers, Readable, StepsRoom, StepsPut};

use file_accepted::CheckedFunction;
use file_kinds::SEQUENCE_BYTE;
use memory_buffer::put_number;
use rewrite_log::READ_LOGGED;
use write_body_expressions::write_body_form;
use write_nodes::{put_node, put_setting};
use write_places::{Next, Run};

// How many steps were written, and how many nodes they have.
#[derive(Clone, Copy)]
pub struct Steps {
    pub count: usize,
    pub nodes: usize,
}

// One step: a variable is set to the body's form of node n, whose first variable is number i.
pub fn put_step(
    function: &CheckedFunction,
    variable: usize,
    n: usize,
    next: Next,
    out: &mut [u8],
) -> usize
    requires { (n < node_count function.now.file.now)
        × ((next.variable + body_count (scope_in function.now.file.now function.now.at)
        (expression_in (nodes_in function.now.file.now) n) ≤ 65535)
        × (Room out.old next.at next.base
        (setting variable (body_form (scope_in function.now.file.now function.now.at)
        (expression_in (nodes_in function.now.file.now) n) next.variable)))) }
    ensures { Numbered out.old out.new next.at next.base
        (setting variable (body_form (scope_in function.now.file.now function.now.at)
        (expression_in (nodes_in function.now.file.now) n) next.variable)) result }
{
    let i = next.variable;
    let at = next.at;
    let base = next.base;
    let value = write_body_form(function, n, i, out, at, base);
    put_setting(variable, value, out, at, base)
}

// The steps of the read variables among `left` entries of a log, with their roots noted from place `noted` on.
pub fn put_steps(
    function: &CheckedFunction,
    log: &[u16],
    run: Run,
    roots: &mut [u16],
    out: &mut [u8],
) -> Steps
    requires { (Readable function.now.file.now function.now.at log.now run.from run.left)
        × (StepsRoom out.old roots.old run.at run.base run.noted
        (steps_in function.now.file.now function.now.at log.now run.from run.left)) }
    ensures { StepsPut out.old out.new roots.old roots.new
        run.at run.base run.noted
        (steps_in function.now.file.now function.now.at log.now run.from run.left) result }
{
    let from = run.from;
    let left = run.left;
    let noted = run.noted;
    let at = run.at;
    let base = run.base;
    if left == 0 {
        return Steps { count: 0, nodes: 0 };
    }
    let rest = Run {
        from: from + 5,
        left: left - 1,
        ..run
    };
    if log[from] == READ_LOGGED {
        let variable = log[from + 1] as usize;
        let n = log[from + 3] as usize;
        let i = log[from + 4] as usize;
        let nodes = put_step(
            function,
            variable,
            n,
            Next {
                variable: i,
                at,
                base,
            },
            out,
        );
        put_number(roots, noted, (base + nodes - 1) as u16);
        let later = put_steps(
            function,
            log,
            Run {
                noted: noted + 1,
                at: at + 8 * nodes,
                base: base + nodes,
                ..rest
            },
            roots,
            out,
        );
        Steps {
            count: later.count + 1,
            nodes: nodes + later.nodes,
        }
    } else {
        put_steps(function, log, rest, roots, out)
    }
}

// The sequences of the first `count` steps with these roots, the last one's first, above a rest whose root is `top`.
pub fn close_steps(roots: &[u16], count: usize, top: usize, out: &mut [u8], at: usize)
    requires { (count ≤ length roots.now) × ((top + count ≤ 65535) × (at + 8 * count ≤ length out.old)) }
    ensures { out.new ≡ stored out.old at (flat_map node_bytes (closers (take count roots.now) top)) }
{
    if 0 < count {
        let root = roots[count - 1] as usize;
        put_node(SEQUENCE_BYTE, 0, root, top, 0, out, at);
        close_steps(roots, count - 1, top + 1, out, at + 8);
    }
}
