// 01, Rewriting: the nodes of a function's written body, statement by statement.
#![tactic(auto)]

ghost use Rattle.std.specs.Prelude.{◌≡◌, ◌+◌, ◌*◌};
ghost use Rattle.kit.specs.Names.{true};
ghost use Rattle.theory_trees.specs.Trees.{statement_in};
ghost use Rattle.file_accepted.specs.Context.{nodes_in};
ghost use Rattle.rewrite_events.specs.Ends.{is_simple};
ghost use Rattle.write_bodies.specs.Bodies.{StatementReady, StatementWritten, BranchReady, BranchWritten, ConditionReady};
ghost use Rattle.write_bodies.specs.Bodies.{ConditionWritten, BranchesReady, BranchesWritten};
ghost use Rattle.file_decoded.specs.Slices.{record_at};

use file_accepted::CheckedFunction;
use file_decoded::node_at;
use file_kinds::*;
use rewrite_log::Position;
use write_body_expressions::write_body_form;
use write_ends::find_end;
use write_guards::put_guard;
use write_nodes::{put_above_three, put_above_two};
use write_places::{Run, Spot};
use write_stepped_statements::write_single;
use write_steps::{close_steps, put_steps};

// How many nodes were written, and the position behind the events that they come from.
#[derive(Clone, Copy)]
pub struct Extent {
    pub nodes: usize,
    pub next: Position,
}

// How many steps stand before a condition, how many nodes they and its form have, and the position behind its events.
#[derive(Clone, Copy)]
pub struct Condition {
    pub count: usize,
    pub nodes: usize,
    pub form: usize,
    pub next: Position,
}

// A statement that holds no other, behind its steps.
fn write_simple(
    function: &CheckedFunction,
    n: usize,
    log: &[u16],
    spot: Spot,
    roots: &mut [u16],
    out: &mut [u8],
) -> Extent
    requires { (is_simple (statement_in (nodes_in function.now.file.now) n) ≡ true)
        × (StatementReady function.now.file.now function.now.at n log.now spot.p
        roots.old out.old spot.at spot.base) }
    ensures { StatementWritten function.now.file.now function.now.at n spot.p
        out.old out.new spot.at spot.base result }
{
    let p = spot.p;
    let at = spot.at;
    let base = spot.base;
    let from = p.at;
    let end = find_end(log, from);
    let entries = (end.at - from) / 5;
    let nodes = write_single(function, log, entries, n, spot, roots, out);
    Extent { nodes, next: end }
}

// The steps before a condition, and its form.
fn write_condition(
    function: &CheckedFunction,
    n: usize,
    log: &[u16],
    spot: Spot,
    roots: &mut [u16],
    out: &mut [u8],
) -> Condition
    requires { ConditionReady function.now.file.now function.now.at n log.now spot.p
        roots.old out.old spot.at spot.base }
    ensures { ConditionWritten function.now.file.now function.now.at n spot.p roots.old roots.new
        out.old out.new spot.at spot.base result }
{
    let p = spot.p;
    let at = spot.at;
    let base = spot.base;
    let from = p.at;
    let end = find_end(log, from);
    let entries = (end.at - from) / 5;
    let steps = put_steps(
        function,
        log,
        Run {
            from,
            left: entries,
            noted: 0,
            at,
            base,
        },
        roots,
        out,
    );
    let place = at + 8 * steps.nodes;
    let first = base + steps.nodes;
    let form = write_body_form(function, n, p.variable, out, place, first);
    Condition {
        count: steps.count,
        nodes: steps.nodes,
        form,
        next: end,
    }
}

// "Each branch begins by setting a guard variable of its own to true": node n behind its guard.
#[cycle(write_branch_write_branches_write_conditional_write_sequence_write_statement)]
fn write_branch(
    function: &CheckedFunction,
    n: usize,
    log: &[u16],
    spot: Spot,
    roots: &mut [u16],
    out: &mut [u8],
) -> Extent
    requires { BranchReady function.now.file.now function.now.at n log.now spot.p
        roots.old out.old spot.at spot.base }
    ensures { BranchWritten function.now.file.now function.now.at n spot.p
        out.old out.new spot.at spot.base result }
{
    let p = spot.p;
    let at = spot.at;
    let base = spot.base;
    let guard = p.variable;
    put_guard(guard, out, at, base);
    let q = Position {
        at: p.at + 5,
        variable: guard + 1,
    };
    let inside = write_statement(
        function,
        n,
        log,
        Spot {
            p: q,
            at: at + 16,
            base: base + 2,
        },
        roots,
        out,
    );
    let nodes = put_above_two(SEQUENCE_BYTE, 0, 2, inside.nodes, out, at, base);
    let next = inside.next;
    Extent { nodes, next }
}

// The two branches of conditional n and its own node, behind a condition of so many nodes.
#[cycle(write_branch_write_branches_write_conditional_write_sequence_write_statement)]
fn write_branches(
    function: &CheckedFunction,
    n: usize,
    form: usize,
    log: &[u16],
    spot: Spot,
    roots: &mut [u16],
    out: &mut [u8],
) -> Extent
    requires { BranchesReady function.now.file.now function.now.at n (record_at function.now.source.now n) form log.now spot.p
        roots.old out.old spot.at spot.base }
    ensures { BranchesWritten function.now.file.now function.now.at (record_at function.now.source.now n) form spot.p
        out.old out.new spot.at spot.base result }
{
    let p = spot.p;
    let at = spot.at;
    let base = spot.base;
    let node = node_at(function.source, n);
    let a = at + 8 * form;
    let b = base + form;
    let then = write_branch(
        function,
        node.second,
        log,
        Spot { p, at: a, base: b },
        roots,
        out,
    );
    let c = a + 8 * then.nodes;
    let d = b + then.nodes;
    let q = then.next;
    let last = write_branch(
        function,
        node.third,
        log,
        Spot {
            p: q,
            at: c,
            base: d,
        },
        roots,
        out,
    );
    let nodes = put_above_three(IF_BYTE, form, then.nodes, last.nodes, out, at, base);
    let next = last.next;
    Extent { nodes, next }
}

// A conditional behind the steps of its condition. The steps' roots stay before those of the branches.
#[cycle(write_branch_write_branches_write_conditional_write_sequence_write_statement)]
fn write_conditional(
    function: &CheckedFunction,
    n: usize,
    log: &[u16],
    spot: Spot,
    roots: &mut [u16],
    out: &mut [u8],
) -> Extent
    requires { ((record_at function.now.source.now n).kind ≡ 21) × (StatementReady function.now.file.now function.now.at n log.now spot.p
        roots.old out.old spot.at spot.base) }
    ensures { StatementWritten function.now.file.now function.now.at n spot.p
        out.old out.new spot.at spot.base result }
{
    let p = spot.p;
    let at = spot.at;
    let base = spot.base;
    let first = node_at(function.source, n).first;
    let c = write_condition(function, first, log, spot, roots, out);
    let count = c.count;
    let q = c.next;
    let place = at + 8 * c.nodes;
    let number = base + c.nodes;
    let rest = write_branches(
        function,
        n,
        c.form,
        log,
        Spot {
            p: q,
            at: place,
            base: number,
        },
        &mut roots[count..],
        out,
    );
    let top = number + rest.nodes - 1;
    close_steps(roots, count, top, out, place + 8 * rest.nodes);
    let next = rest.next;
    Extent {
        nodes: c.nodes + rest.nodes + count,
        next,
    }
}

// Statement n, whose events the log holds from a position on; `roots` is scratch space.
#[cycle(write_branch_write_branches_write_conditional_write_sequence_write_statement)]
pub fn write_statement(
    function: &CheckedFunction,
    n: usize,
    log: &[u16],
    spot: Spot,
    roots: &mut [u16],
    out: &mut [u8],
) -> Extent
    requires { StatementReady function.now.file.now function.now.at n log.now spot.p
        roots.old out.old spot.at spot.base }
    ensures { StatementWritten function.now.file.now function.now.at n spot.p
        out.old out.new spot.at spot.base result }
{
    let p = spot.p;
    let at = spot.at;
    let base = spot.base;
    let node = node_at(function.source, n);
    let kind = node.kind;
    match kind {
        SEQUENCE => write_sequence(function, n, log, spot, roots, out),
        IF => write_conditional(function, n, log, spot, roots, out),
        _ => write_simple(function, n, log, spot, roots, out),
    }
}

// Two statements and the sequence above them.
#[cycle(write_branch_write_branches_write_conditional_write_sequence_write_statement)]
fn write_sequence(
    function: &CheckedFunction,
    n: usize,
    log: &[u16],
    spot: Spot,
    roots: &mut [u16],
    out: &mut [u8],
) -> Extent
    requires { ((record_at function.now.source.now n).kind ≡ 17) × (StatementReady function.now.file.now function.now.at n log.now spot.p
        roots.old out.old spot.at spot.base) }
    ensures { StatementWritten function.now.file.now function.now.at n spot.p
        out.old out.new spot.at spot.base result }
{
    let p = spot.p;
    let at = spot.at;
    let base = spot.base;
    let node = node_at(function.source, n);
    let first = write_statement(function, node.first, log, spot, roots, out);
    let q = first.next;
    let a = at + 8 * first.nodes;
    let b = base + first.nodes;
    let second = write_statement(
        function,
        node.second,
        log,
        Spot {
            p: q,
            at: a,
            base: b,
        },
        roots,
        out,
    );
    let nodes = put_above_two(SEQUENCE_BYTE, 0, first.nodes, second.nodes, out, at, base);
    let next = second.next;
    Extent { nodes, next }
}
