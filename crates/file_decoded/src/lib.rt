// A contract file's sections as slices of numbers.
#![tactic(auto)]

ghost use Rattle.std.specs.Prelude.{◌≡◌, ◌+◌, ◌*◌, ◌<◌, ◌≤◌};
ghost use Rattle.kit.specs.Names.{length, replicate};
ghost use Rattle.file_bytes.specs.Node.{IsNode};
ghost use Rattle.file_decoded.specs.Slices.{number_at, node_from, record_at, Narrow};
ghost use Rattle.file_decoded.specs.Node.{IsDecoded};

use file_bytes::Node;

// A contract's sections, each as a slice of numbers; the parameters of all functions stand in one.
#[derive(Clone, Copy)]
pub struct DecodedSections<'a> {
    pub fields: &'a [u16],
    pub functions: &'a [u16],
    pub parameters: &'a [u16],
    pub nodes: &'a [u16],
}

// The most numbers that number 2 lets pass: 64 fields.
pub const FIELD_NUMBERS: usize = 192;

// 16 functions.
pub const FUNCTION_NUMBERS: usize = 48;

// Eight parameters for each of them.
pub const PARAMETER_NUMBERS: usize = 256;

// 512 nodes.
pub const NODE_NUMBERS: usize = 2560;

// 64 nodes, those of a short contract, which cost less to clear.
pub const SHORT_NODE_NUMBERS: usize = 320;

// A column with a number for each of 512 nodes.
pub const COLUMN_NUMBERS: usize = 512;

// The same for a short contract.
pub const SHORT_COLUMN_NUMBERS: usize = 64;

// Room for so many numbers, all zero.
pub fn numbers_room<const N: usize>() -> [u16; N]
    ensures { (N ≡ length result) × (result ≡ replicate N 0) }
{
    [0; N]
}

// The number at a place.
pub fn number_from(numbers: &[u16], at: usize) -> usize
    requires { at < length numbers.now }
    ensures value { result ≡ number_at numbers.now at }
    ensures upper_bound { result ≤ 65535 }
{
    numbers[at] as usize
}

// The same as it stands, of two bytes.
pub fn short_from(numbers: &[u16], at: usize) -> u16
    requires { at < length numbers.now }
    ensures { result ≡ number_at numbers.now at }
{
    numbers[at]
}

// The node whose five numbers begin at a place.
pub fn node_from(nodes: &[u16], at: usize) -> Node
    requires { at + 5 ≤ length nodes.now }
    ensures { IsDecoded (node_from nodes.now at) result }
{
    let kind = number_from(nodes, at);
    let arg = number_from(nodes, at + 1);
    let first = number_from(nodes, at + 2);
    let second = number_from(nodes, at + 3);
    let third = number_from(nodes, at + 4);
    Node {
        kind,
        arg,
        first,
        second,
        third,
    }
}

// Node n of a contract whose kinds and args are bytes.
pub fn node_at(nodes: &[u16], n: usize) -> Node
    requires { (Narrow nodes.now) × (5 * n + 5 ≤ length nodes.now) }
    ensures { IsNode (record_at nodes.now n) result }
{
    node_from(nodes, 5 * n)
}
