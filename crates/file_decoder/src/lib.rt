// The decoder: a contract file whose counts are right, from its bytes into slices of numbers. Each byte is read once.
#![tactic(auto)]

ghost use Rattle.std.specs.Prelude.{◌≡◌, ◌+◌, ◌*◌, ◌/◌, ◌≤◌};
ghost use Rattle.kit.specs.Names.{length};
ghost use Rattle.definitions.specs.ContractFile.{byte_at, node_records};
ghost use Rattle.memory_buffer.specs.Buffer.{stored};
ghost use Rattle.file_decoded.specs.Slices.{nodes_from, Narrow};
ghost use Rattle.file_decoder.specs.Decoding.{function_numbers, own_numbers, functions_numbers, parameters_numbers};
ghost use Rattle.file_decoder.specs.Decoding.{FunctionRoom, FunctionsRoom, Decodable, Decoded};

use file_bytes::Layout;
use file_node_decoder::{byte_in, copy_bytes, decode_node, two_bytes_in};

// The nodes, as many as the slice has room for.
pub fn decode_nodes(file: &[u8], from: usize, nodes: &mut [u16])
    requires { from + 8 * (length nodes.old / 5) ≤ length file.now }
    ensures nodes_after { (nodes_from (length nodes.new / 5) nodes.new 0
        ≡ node_records (length nodes.old / 5) file.now from)
        × (length nodes.new ≡ length nodes.old) }
    ensures narrow { Narrow nodes.new }
{
    for i in 0..nodes.len() / 5 {
        decode_node(file, from + 8 * i, nodes, 5 * i);
    }
}

// "each is a one-byte parameter count, 0 to 8; a type and an owner (0 or 1) for each parameter; a two-byte root node": the function at a
// place of the file. The answer is how many parameters it has.
fn decode_function(
    file: &[u8],
    from: usize,
    functions: &mut [u16],
    at: usize,
    parameters: &mut [u16],
    first: usize,
) -> usize
    requires { FunctionRoom file.now from functions.old at parameters.old first }
    ensures value { (result ≡ byte_at file.now from) × (result ≤ 255) }
    ensures functions_after { (functions.new ≡ stored functions.old at (function_numbers file.now from first))
        × (parameters.new ≡ stored parameters.old first (own_numbers file.now from)) }
{
    let count = byte_in(file, from);
    let bytes = 2 * (count as usize);
    functions[at] = first as u16;
    functions[at + 1] = count;
    functions[at + 2] = two_bytes_in(file, from + 1 + bytes);
    copy_bytes(file, from + 1, bytes, parameters, first);
    count as usize
}

fn decode_functions(file: &[u8], from: usize, functions: &mut [u16], parameters: &mut [u16])
    requires { FunctionsRoom file.now from functions.old parameters.old }
    ensures { (functions.new
        ≡ stored functions.old 0 (functions_numbers (length functions.old / 3) file.now from 0))
        × (parameters.new
        ≡ stored parameters.old 0 (parameters_numbers (length functions.old / 3) file.now from)) }
{
    let mut place = from;
    let mut first = 0;
    for i in 0..functions.len() / 3 {
        let own = decode_function(file, place, functions, 3 * i, parameters, first);
        place += 1 + 2 * own + 2;
        first += 2 * own;
    }
}

// All sections of a file. The slices are as long as its counts say, and hold them afterwards.
pub fn decode(
    file: &[u8],
    l: Layout,
    fields: &mut [u16],
    functions: &mut [u16],
    parameters: &mut [u16],
    nodes: &mut [u16],
)
    requires { Decodable file.now l fields.old functions.old parameters.old nodes.old }
    ensures { Decoded file.now fields.new functions.new
        parameters.new nodes.new }
{
    let length = fields.len();
    copy_bytes(file, 1, length, fields, 0);
    decode_functions(file, l.functions_at + 1, functions, parameters);
    decode_nodes(file, l.nodes_at + 2, nodes);
}
