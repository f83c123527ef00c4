// 01, Rewriting: one statement that holds no other, written with the steps before it.
#![tactic(auto)]

ghost use Rattle.std.specs.Prelude.{◌+◌, ◌<◌, ◌≤◌};
ghost use Rattle.kit.specs.Names.{length};
ghost use Rattle.definitions.specs.ContractFile.{node_count};
ghost use Rattle.theory_trees.specs.Trees.{statement_in};
ghost use Rattle.file_accepted.specs.Context.{nodes_in, scope_in};
ghost use Rattle.write_nodes.specs.Numbering.{Room, Numbered};
ghost use Rattle.write_simple_statements.specs.Statements.{simple_count};
ghost use Rattle.write_steps.specs.Steps.{steps_in, Readable};
ghost use Rattle.write_stepped_statements.specs.Single.{single_tree};

use file_accepted::CheckedFunction;
use write_places::{Run, Spot};
use write_simple_statements::write_statement_form;
use write_steps::{close_steps, put_steps};

// The statement is node n, and its `left` entries stand in the log; `roots` is scratch space.
pub fn write_single(
    function: &CheckedFunction,
    log: &[u16],
    left: usize,
    n: usize,
    spot: Spot,
    roots: &mut [u16],
    out: &mut [u8],
) -> usize
    requires { (n < node_count function.now.file.now)
        × ((spot.p.variable + simple_count (scope_in function.now.file.now function.now.at)
        (statement_in (nodes_in function.now.file.now) n) ≤ 65535)
        × ((Readable function.now.file.now function.now.at log.now spot.p.at left)
        × ((length (steps_in function.now.file.now function.now.at log.now spot.p.at left) ≤ length roots.old)
        × (Room out.old spot.at spot.base
        (single_tree function.now.file.now function.now.at log.now spot.p.at left n spot.p.variable))))) }
    ensures { Numbered out.old out.new spot.at spot.base
        (single_tree function.now.file.now function.now.at log.now spot.p.at left n spot.p.variable) result }
{
    let from = spot.p.at;
    let i = spot.p.variable;
    let at = spot.at;
    let base = spot.base;
    let steps = put_steps(
        function,
        log,
        Run {
            from,
            left,
            noted: 0,
            at,
            base,
        },
        roots,
        out,
    );
    let rest = write_statement_form(
        function,
        n,
        i,
        out,
        at + 8 * steps.nodes,
        base + steps.nodes,
    );
    let top = base + steps.nodes + rest - 1;
    close_steps(
        roots,
        steps.count,
        top,
        out,
        at + 8 * steps.nodes + 8 * rest,
    );
    steps.nodes + rest + steps.count
}
