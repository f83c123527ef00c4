// The events of an expression, logged in their order: body translation supplies, supplying enters circuit translation, and
// the reads of a circuit go back to body translation. The node number falls around the cycle.
#![tactic(auto)]

ghost use Rattle.file_accepted.specs.Context.{nodes_in};
ghost use Rattle.rewrite_log.specs.Logs.{Logged};
ghost use Rattle.rewrite_expressions.specs.Translations.{body_of, circuit_of, body_parts_of, circuit_parts_of, Ready, ReadyToSupply};
ghost use Rattle.rewrite_expressions.specs.Translations.{Supplied};

use file_accepted::CheckedFunction;
use rewrite_log::{CLAIM_EVENT, Entry, Position, READ_EVENT, SUPPLIED_EVENT, log_entry};
use rewrite_plans::{parts_of, read_code, supplied_code};

// "In the body, public expressions stay .."; what is private, and a reveal, is supplied.
#[cycle(body_log_body_parts_log_circuit_log_circuit_parts_log_supply_log)]
pub fn body_log(
    function: &CheckedFunction,
    n: usize,
    guard: u16,
    log: &mut [u16],
    p: Position,
) -> Position
    requires { Ready function.now.file.now n log.old p (body_of function.now.file.now function.now.at guard n) }
    ensures { Logged (nodes_in function.now.file.now) log.old log.new p result
        (body_of function.now.file.now function.now.at guard n p.variable) }
{
    let code = supplied_code(function, n);
    if code == 0 {
        body_parts_log(function, n, guard, log, p)
    } else {
        supply_log(function, n, code - 1, guard, log, p)
    }
}

// The body form of a node's parts.
#[cycle(body_log_body_parts_log_circuit_log_circuit_parts_log_supply_log)]
fn body_parts_log(
    function: &CheckedFunction,
    n: usize,
    guard: u16,
    log: &mut [u16],
    p: Position,
) -> Position
    requires { Ready function.now.file.now n log.old p (body_parts_of function.now.file.now function.now.at guard n) }
    ensures { Logged (nodes_in function.now.file.now) log.old log.new p result
        (body_parts_of function.now.file.now function.now.at guard n p.variable) }
{
    let parts = parts_of(function, n);
    if parts.count == 0 {
        return p;
    }
    let q = body_log(function, parts.first, guard, log, p);
    if parts.count == 1 {
        return q;
    }
    body_log(function, parts.second, guard, log, q)
}

// "Supplying makes the variable, then turns its expression into circuit form, then adds a constraint."
#[cycle(body_log_body_parts_log_circuit_log_circuit_parts_log_supply_log)]
pub fn supply_log(
    function: &CheckedFunction,
    n: usize,
    owner: usize,
    guard: u16,
    log: &mut [u16],
    p: Position,
) -> Position
    requires { ReadyToSupply function.now.file.now function.now.at n guard owner log.old p }
    ensures { Supplied function.now.file.now function.now.at guard n owner log.old log.new p result }
{
    let variable = p.variable;
    let supplied = Entry {
        tag: SUPPLIED_EVENT,
        variable,
        owner,
        node: n,
        last: 0,
    };
    let q = log_entry(log, p, supplied, 1);
    let r = circuit_log(function, n, guard, log, q);
    let claimed = Entry {
        tag: CLAIM_EVENT,
        variable,
        owner,
        node: n,
        last: guard as usize,
    };
    log_entry(log, r, claimed, 0)
}

// "The read's own key or operands follow the body rule, and come before its variable."
#[cycle(body_log_body_parts_log_circuit_log_circuit_parts_log_supply_log)]
fn circuit_log(
    function: &CheckedFunction,
    n: usize,
    guard: u16,
    log: &mut [u16],
    p: Position,
) -> Position
    requires { Ready function.now.file.now n log.old p (circuit_of function.now.file.now function.now.at guard n) }
    ensures { Logged (nodes_in function.now.file.now) log.old log.new p result
        (circuit_of function.now.file.now function.now.at guard n p.variable) }
{
    let code = read_code(function, n);
    if code == 0 {
        circuit_parts_log(function, n, guard, log, p)
    } else {
        let start = p.variable;
        let q = body_parts_log(function, n, guard, log, p);
        let read = Entry {
            tag: READ_EVENT,
            variable: q.variable,
            owner: code - 1,
            node: n,
            last: start,
        };
        log_entry(log, q, read, 1)
    }
}

// The circuit form of a node's parts; a reveal is passed through.
#[cycle(body_log_body_parts_log_circuit_log_circuit_parts_log_supply_log)]
fn circuit_parts_log(
    function: &CheckedFunction,
    n: usize,
    guard: u16,
    log: &mut [u16],
    p: Position,
) -> Position
    requires { Ready function.now.file.now n log.old p (circuit_parts_of function.now.file.now function.now.at guard n) }
    ensures { Logged (nodes_in function.now.file.now) log.old log.new p result
        (circuit_parts_of function.now.file.now function.now.at guard n p.variable) }
{
    let parts = parts_of(function, n);
    if parts.count == 0 {
        return p;
    }
    let q = circuit_log(function, parts.first, guard, log, p);
    if parts.count == 1 {
        return q;
    }
    circuit_log(function, parts.second, guard, log, q)
}
