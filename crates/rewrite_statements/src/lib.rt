// The events of a function's statements, logged in their order.
#![tactic(auto)]

ghost use Rattle.file_accepted.specs.Context.{nodes_in};
ghost use Rattle.file_accepted.specs.Functions.{root_at};
ghost use Rattle.rewrite_log.specs.Logs.{Logged};
ghost use Rattle.rewrite_expressions.specs.Translations.{Ready, statement_of};
ghost use Rattle.rewrite_assignments.specs.Placing.{branch_of, starting_at};

use file_accepted::CheckedFunction;
use file_bytes::{function_end, two_bytes_at};
use file_decoded::node_at;
use file_kinds::{IF, SEQUENCE};
use rewrite_log::{Entry, GUARD_EVENT, Position, log_entry};
use rewrite_simple_statements::{condition_log, simple_log};

// "Each branch begins by setting a guard variable of its own to true; constraints inside hold under the innermost guard."
#[cycle(branch_log_statement_log)]
pub fn branch_log(function: &CheckedFunction, n: usize, log: &mut [u16], p: Position) -> Position
    requires { Ready function.now.file.now n log.old p (branch_of function.now.file.now function.now.at n) }
    ensures { Logged (nodes_in function.now.file.now) log.old log.new p result
        (branch_of function.now.file.now function.now.at n p.variable) }
{
    let variable = p.variable;
    let entry = Entry {
        tag: GUARD_EVENT,
        variable,
        owner: 0,
        node: 0,
        last: 0,
    };
    let q = log_entry(log, p, entry, 1);
    statement_log(function, n, (variable + 1) as u16, log, q)
}

// The events of statement n under a guard, behind those that the log holds.
#[cycle(branch_log_statement_log)]
pub fn statement_log(
    function: &CheckedFunction,
    n: usize,
    guard: u16,
    log: &mut [u16],
    p: Position,
) -> Position
    requires { Ready function.now.file.now n log.old p (statement_of function.now.file.now function.now.at guard n) }
    ensures { Logged (nodes_in function.now.file.now) log.old log.new p result
        (statement_of function.now.file.now function.now.at guard n p.variable) }
{
    let node = node_at(function.source, n);
    let kind = node.kind;
    match kind {
        SEQUENCE => {
            let q = statement_log(function, node.first, guard, log, p);
            statement_log(function, node.second, guard, log, q)
        }
        IF => {
            let q = condition_log(function, node.first, guard, log, p);
            let r = branch_log(function, node.second, log, q);
            branch_log(function, node.third, log, r)
        }
        _ => simple_log(function, n, guard, log, p),
    }
}

// The events of a function's body, from the start of the log and a first variable on.
pub fn function_log(function: &CheckedFunction, first: usize, log: &mut [u16]) -> Position
    requires { Ready function.now.file.now (root_at function.now.file.now function.now.at) log.old (starting_at first)
        (statement_of function.now.file.now function.now.at 0 (root_at function.now.file.now function.now.at)) }
    ensures { Logged (nodes_in function.now.file.now) log.old log.new (starting_at first) result
        (statement_of function.now.file.now function.now.at 0 (root_at function.now.file.now function.now.at) first) }
{
    let root = two_bytes_at(function.file, function_end(function.file, function.at) - 2);
    let start = Position {
        at: 0,
        variable: first,
    };
    statement_log(function, root, 0, log, start)
}
