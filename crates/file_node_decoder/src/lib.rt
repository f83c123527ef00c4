// The decoder's steps: bytes of a contract file written over a slice of numbers, in a row or as a node. They stand apart from the
// decoder of whole sections, so that an edit of one of them proves little.
#![tactic(auto)]

ghost use Rattle.std.specs.Prelude.{◌≡◌, ◌+◌, ◌<◌, ◌≤◌};
ghost use Rattle.kit.specs.Names.{length};
ghost use Rattle.definitions.specs.ContractFile.{byte_at, two_bytes_at};
ghost use Rattle.memory_buffer.specs.Buffer.{stored};
ghost use Rattle.file_node_decoder.specs.Numbers.{bytes_at, node_numbers};

use memory_buffer::put_number;

pub fn byte_in(file: &[u8], at: usize) -> u16
    requires { at < length file.now }
    ensures { (result ≡ byte_at file.now at) × (result ≤ 255) }
{
    file[at] as u16
}

pub fn two_bytes_in(file: &[u8], at: usize) -> u16
    requires { at + 2 ≤ length file.now }
    ensures { result ≡ two_bytes_at file.now at }
{
    byte_in(file, at) + 256 * byte_in(file, at + 1)
}

// Some bytes of the file, each as a number of its own.
pub fn copy_bytes(file: &[u8], from: usize, count: usize, numbers: &mut [u16], at: usize)
    requires { (from + count ≤ length file.now) × (at + count ≤ length numbers.old) }
    ensures { numbers.new ≡ stored numbers.old at (bytes_at file.now from count) }
{
    for i in 0..count {
        put_number(numbers, at + i, byte_in(file, from + i));
    }
}

// "each is kind, arg, then first, second and third of two bytes"
pub fn decode_node(file: &[u8], from: usize, nodes: &mut [u16], at: usize)
    requires { (from + 8 ≤ length file.now) × (at + 5 ≤ length nodes.old) }
    ensures { nodes.new ≡ stored nodes.old at (node_numbers file.now from) }
{
    nodes[at] = byte_in(file, from);
    nodes[at + 1] = byte_in(file, from + 1);
    nodes[at + 2] = two_bytes_in(file, from + 2);
    nodes[at + 3] = two_bytes_in(file, from + 4);
    nodes[at + 4] = two_bytes_in(file, from + 6);
}
