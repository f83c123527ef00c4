// 01, Runs and views: circuits worked out on a call's variables, and the constraints that a verify tests.
#![tactic(auto)]

ghost use Rattle.std.specs.Prelude.{◌≡◌, ◌+◌, ◌*◌, ◌<◌, ◌≤◌};
ghost use Rattle.write_trees.specs.Trees.{circuit_in};
ghost use Rattle.write_trees.specs.Table.{count_of, table_of, Readable};
ghost use Rattle.ledger_circuits.specs.Circuits.{value_from};

use file_bytes::read_node;
use file_kinds::*;
use ledger_arithmetic::{negated, operated};
use ledger_contents::{opened_at, plain_at};
use ledger_places::number_at;

// "value first + 65,536 × second"
pub fn constant_of(first: usize, second: usize) -> u32
    requires { (first ≤ 65535) × (second ≤ 65535) }
    ensures { result ≡ first + 65536 * second }
{
    (first + 65536 * second) as u32
}

// The value of the circuit whose root is node n.
pub fn circuit_value(nodes: &[u8], addresses: &[u32], variables: &[u32], n: usize) -> u32
    requires { (n < count_of nodes.now) × (Readable nodes.now) }
    ensures { result ≡ value_from addresses.now variables.now (circuit_in (table_of nodes.now) n) }
{
    let node = read_node(nodes, 8 * n);
    let kind = node.kind;
    match kind {
        CONSTANT => constant_of(node.first, node.second),
        OPERATOR => {
            let left = circuit_value(nodes, addresses, variables, node.first);
            let right = circuit_value(nodes, addresses, variables, node.second);
            operated(node.arg, left, right)
        }
        NOT => negated(circuit_value(nodes, addresses, variables, node.first)),
        VARIABLE => plain_at(variables, node.first),
        OPENED => opened_at(variables, node.first),
        _ => number_at(addresses, 1),
    }
}
