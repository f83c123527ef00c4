// 01, The contract file: nodes of eight bytes appended to a lent buffer.
#![tactic(auto)]

ghost use Rattle.std.specs.Prelude.{◌≡◌, ◌+◌, ◌*◌, ◌-◌, ◌≤◌};
ghost use Rattle.kit.specs.Names.{length};
ghost use Rattle.definitions.specs.ContractFile.{node};
ghost use Rattle.definitions.specs.Rewriting.{node_bytes};
ghost use Rattle.memory_buffer.specs.Buffer.{stored};

use file_kinds::SET_BYTE;
use memory_append::{append_byte, append_two_bytes};

// "each is kind, arg, then first, second and third of two bytes"
pub fn put_node(
    kind: u8,
    arg: u8,
    first: usize,
    second: usize,
    third: usize,
    out: &mut [u8],
    at: usize,
)
    requires { at + 8 ≤ length out.old }
    ensures { out.new ≡ stored out.old at (node_bytes (node kind arg first second third)) }
{
    let a = append_byte(kind, out, at);
    let b = append_byte(arg, out, a);
    let c = append_two_bytes(first, out, b);
    let d = append_two_bytes(second, out, c);
    append_two_bytes(third, out, d);
}

// A node without children; the answer is that it is one node.
pub fn put_leaf(kind: u8, arg: u8, first: usize, second: usize, out: &mut [u8], at: usize) -> usize
    requires { at + 8 ≤ length out.old }
    ensures { (out.new ≡ stored out.old at (node_bytes (node kind arg first second 0))) × (result ≡ 1) }
{
    put_node(kind, arg, first, second, 0, out, at);
    1
}

// The node above one child of so many nodes; the answer is how many nodes there are with it.
pub fn put_above_one(
    kind: u8,
    arg: u8,
    nodes: usize,
    out: &mut [u8],
    at: usize,
    base: usize,
) -> usize
    requires { (1 ≤ nodes) × ((base + nodes ≤ 65535) × (at + 8 * nodes + 8 ≤ length out.old)) }
    ensures { (out.new ≡ stored out.old (at + 8 * nodes) (node_bytes (node kind arg (base + nodes - 1) 0 0)))
        × (result ≡ nodes + 1) }
{
    put_node(kind, arg, base + nodes - 1, 0, 0, out, at + 8 * nodes);
    nodes + 1
}

// The node above two children of so many nodes.
pub fn put_above_two(
    kind: u8,
    arg: u8,
    left: usize,
    right: usize,
    out: &mut [u8],
    at: usize,
    base: usize,
) -> usize
    requires { (1 ≤ left) × ((base + left + right ≤ 65535) × (at + 8 * left + 8 * right + 8 ≤ length out.old)) }
    ensures { (out.new ≡ stored out.old (at + 8 * left + 8 * right)
        (node_bytes (node kind arg (base + left - 1) (base + left + right - 1) 0)))
        × (result ≡ left + right + 1) }
{
    put_node(
        kind,
        arg,
        base + left - 1,
        base + left + right - 1,
        0,
        out,
        at + 8 * left + 8 * right,
    );
    left + right + 1
}

// "22 variable first set to second": the node above a value of so many nodes.
pub fn put_setting(variable: usize, nodes: usize, out: &mut [u8], at: usize, base: usize) -> usize
    requires { (1 ≤ nodes) × ((base + nodes ≤ 65535) × (at + 8 * nodes + 8 ≤ length out.old)) }
    ensures { (out.new ≡ stored out.old (at + 8 * nodes)
        (node_bytes (node 22 0 variable (base + nodes - 1) 0)))
        × (result ≡ nodes + 1) }
{
    put_node(
        SET_BYTE,
        0,
        variable,
        base + nodes - 1,
        0,
        out,
        at + 8 * nodes,
    );
    nodes + 1
}

// The node above three children of so many nodes.
pub fn put_above_three(
    kind: u8,
    a: usize,
    b: usize,
    c: usize,
    out: &mut [u8],
    at: usize,
    base: usize,
) -> usize
    requires { (1 ≤ a) × ((base + a + b + c ≤ 65535) × (at + 8 * a + 8 * b + 8 * c + 8 ≤ length out.old)) }
    ensures { (out.new ≡ stored out.old (at + 8 * a + 8 * b + 8 * c)
        (node_bytes (node kind 0 (base + a - 1) (base + a + b - 1) (base + a + b + c - 1))))
        × (result ≡ a + b + c + 1) }
{
    put_node(
        kind,
        0,
        base + a - 1,
        base + a + b - 1,
        base + a + b + c - 1,
        out,
        at + 8 * a + 8 * b + 8 * c,
    );
    a + b + c + 1
}
