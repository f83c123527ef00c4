// A node's five numbers read at once, so that a function which goes by a node's kind has one step before its match.
#![tactic(auto)]

ghost use Rattle.std.specs.Prelude.{◌≡◌, ◌*◌, ◌/◌, ◌<◌, ◌≤◌};
ghost use Rattle.kit.specs.Names.{length};
ghost use Rattle.definitions.specs.ContractFile.{node};
ghost use Rattle.file_decoded.specs.Slices.{node_from};

use file_decoded::{number_from, short_from};

#[derive(Clone, Copy)]
pub struct NodeNumbers {
    pub kind: u16,
    pub arg: u16,
    pub first: usize,
    pub second: usize,
    pub third: usize,
}

// Node n's numbers.
pub fn read_node(nodes: &[u16], n: usize) -> NodeNumbers
    requires { (n < length nodes.now / 5) × (length nodes.now ≤ 2560) }
    ensures { node result.kind result.arg result.first result.second result.third ≡ node_from nodes.now (5 * n) }
{
    let at = 5 * n;
    NodeNumbers {
        kind: short_from(nodes, at),
        arg: short_from(nodes, at + 1),
        first: number_from(nodes, at + 2),
        second: number_from(nodes, at + 3),
        third: number_from(nodes, at + 4),
    }
}
