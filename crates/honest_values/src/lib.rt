// 01, Runs and views: the value that the original works out for an expression, on numbers in all places.
#![tactic(auto)]

ghost use Rattle.std.specs.Prelude.{◌≡◌, ◌+◌, ◌*◌, ◌<◌, ◌≤◌};
ghost use Rattle.definitions.specs.ContractFile.{node_count};
ghost use Rattle.theory_trees.specs.Trees.{expression_in};
ghost use Rattle.file_accepted.specs.Context.{nodes_in};
ghost use Rattle.honest_values.specs.Values.{value_of, kind_at};

use file_accepted::CheckedFunction;
use file_decoded::node_at;
use file_kinds::*;
use ledger_arithmetic::{negated, operated};
use ledger_places::{number_at, position};

// "value first + 65,536 × second"
fn constant_of(first: usize, second: usize) -> u32
    requires { (first ≤ 65535) × (second ≤ 65535) }
    ensures { result ≡ first + 65536 * second }
{
    (first + 65536 * second) as u32
}

// The value of node n.
#[cycle(entry_value_negation_value_operator_value_value)]
pub fn value(
    function: &CheckedFunction,
    numbers: &[u32],
    arguments: &[u32],
    caller: u8,
    n: usize,
) -> u32
    requires { n < node_count function.now.file.now }
    ensures { result ≡ value_of function.now.file.now arguments.now caller numbers.now
        (expression_in (nodes_in function.now.file.now) n) }
{
    let node = node_at(function.source, n);
    let kind = node.kind;
    match kind {
        CONSTANT => constant_of(node.first, node.second),
        FIELD => number_at(numbers, position(function.file, node.arg, 0)),
        ENTRY => entry_value(function, numbers, arguments, caller, n),
        PARAMETER => number_at(arguments, node.arg),
        OPERATOR => operator_value(function, numbers, arguments, caller, n),
        NOT => negation_value(function, numbers, arguments, caller, n),
        REVEAL => value(function, numbers, arguments, caller, node.first),
        _ => caller as u32,
    }
}

// A mapping's entry, under the value of its key.
#[cycle(entry_value_negation_value_operator_value_value)]
fn entry_value(
    function: &CheckedFunction,
    numbers: &[u32],
    arguments: &[u32],
    caller: u8,
    n: usize,
) -> u32
    requires { (kind_at function.now.source.now n ≡ 4) × (n < node_count function.now.file.now) }
    ensures { result ≡ value_of function.now.file.now arguments.now caller numbers.now
        (expression_in (nodes_in function.now.file.now) n) }
{
    let node = node_at(function.source, n);
    let key = value(function, numbers, arguments, caller, node.first);
    number_at(numbers, position(function.file, node.arg, key as usize))
}

// An operator, on the values of its operands.
#[cycle(entry_value_negation_value_operator_value_value)]
fn operator_value(
    function: &CheckedFunction,
    numbers: &[u32],
    arguments: &[u32],
    caller: u8,
    n: usize,
) -> u32
    requires { (kind_at function.now.source.now n ≡ 6) × (n < node_count function.now.file.now) }
    ensures { result ≡ value_of function.now.file.now arguments.now caller numbers.now
        (expression_in (nodes_in function.now.file.now) n) }
{
    let node = node_at(function.source, n);
    let left = value(function, numbers, arguments, caller, node.first);
    let right = value(function, numbers, arguments, caller, node.second);
    operated(node.arg, left, right)
}

// A negation, of the value of its part.
#[cycle(entry_value_negation_value_operator_value_value)]
fn negation_value(
    function: &CheckedFunction,
    numbers: &[u32],
    arguments: &[u32],
    caller: u8,
    n: usize,
) -> u32
    requires { (kind_at function.now.source.now n ≡ 7) × (n < node_count function.now.file.now) }
    ensures { result ≡ value_of function.now.file.now arguments.now caller numbers.now
        (expression_in (nodes_in function.now.file.now) n) }
{
    let node = node_at(function.source, n);
    let part = value(function, numbers, arguments, caller, node.first);
    negated(part)
}
