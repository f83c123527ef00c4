// The events of a statement that holds no other, and of a condition, with the mark that ends them.
#![tactic(auto)]

ghost use Rattle.std.specs.Prelude.{◌≡◌};
ghost use Rattle.kit.specs.Names.{true};
ghost use Rattle.theory_trees.specs.Trees.{statement_in};
ghost use Rattle.file_accepted.specs.Context.{nodes_in};
ghost use Rattle.rewrite_events.specs.Ends.{is_simple};
ghost use Rattle.rewrite_log.specs.Entries.{five};
ghost use Rattle.rewrite_log.specs.Logs.{Slot, Wrote, Logged};
ghost use Rattle.rewrite_expressions.specs.Translations.{Ready, statement_of};
ghost use Rattle.rewrite_simple_statements.specs.Simple.{simple_of, condition_of};

use file_accepted::CheckedFunction;
use file_decoded::node_at;
use file_kinds::*;
use rewrite_assignments::{assign_entry_log, assign_field_log};
use rewrite_expressions::body_log;
use rewrite_log::{END_EVENT, Entry, Position, log_entry};

// The mark that there are no further events. It tells the number of the next variable.
fn end_log(log: &mut [u16], p: Position) -> Position
    requires { Slot log.old p 0 }
    ensures { Wrote log.old log.new p result (five 4 p.variable 0 0 0) 0 }
{
    let entry = Entry {
        tag: END_EVENT,
        variable: p.variable,
        owner: 0,
        node: 0,
        last: 0,
    };
    log_entry(log, p, entry, 0)
}

// The events of condition n under a guard, behind those that the log holds.
pub fn condition_log(
    function: &CheckedFunction,
    n: usize,
    guard: u16,
    log: &mut [u16],
    p: Position,
) -> Position
    requires { Ready function.now.file.now n log.old p (condition_of function.now.file.now function.now.at guard n) }
    ensures { Logged (nodes_in function.now.file.now) log.old log.new p result
        (condition_of function.now.file.now function.now.at guard n p.variable) }
{
    let q = body_log(function, n, guard, log, p);
    end_log(log, q)
}

// The events of statement n but for their end.
fn parts_log(
    function: &CheckedFunction,
    n: usize,
    guard: u16,
    log: &mut [u16],
    p: Position,
) -> Position
    requires { (is_simple (statement_in (nodes_in function.now.file.now) n) ≡ true)
        × (Ready function.now.file.now n log.old p (simple_of function.now.file.now function.now.at guard n)) }
    ensures { Logged (nodes_in function.now.file.now) log.old log.new p result
        (simple_of function.now.file.now function.now.at guard n p.variable) }
{
    let node = node_at(function.source, n);
    let kind = node.kind;
    match kind {
        FIELD_TAKES => assign_field_log(function, node.arg, node.first, guard, log, p),
        ENTRY_TAKES => assign_entry_log(function, node, guard, log, p),
        REQUIRE => body_log(function, node.first, guard, log, p),
        _ => p,
    }
}

// The events of statement n, which holds no other, under a guard, behind those that the log holds.
pub fn simple_log(
    function: &CheckedFunction,
    n: usize,
    guard: u16,
    log: &mut [u16],
    p: Position,
) -> Position
    requires { (is_simple (statement_in (nodes_in function.now.file.now) n) ≡ true)
        × (Ready function.now.file.now n log.old p (statement_of function.now.file.now function.now.at guard n)) }
    ensures { Logged (nodes_in function.now.file.now) log.old log.new p result
        (statement_of function.now.file.now function.now.at guard n p.variable) }
{
    let q = parts_log(function, n, guard, log, p);
    end_log(log, q)
}
