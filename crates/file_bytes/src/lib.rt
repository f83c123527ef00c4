// A contract file's bytes, and where its sections lie.
#![tactic(auto)]

ghost use Rattle.std.specs.Prelude.{◌≡◌, ◌+◌, ◌*◌, ◌≤◌};
ghost use Rattle.definitions.specs.ContractFile.{byte_at, two_bytes_at, function_end, functions_end, node_record};
ghost use Rattle.file_bytes.specs.Layout.{IsLayout};
ghost use Rattle.file_bytes.specs.Node.{IsNode};

// Where the sections lie: their counts, and the places of the functions' and the nodes' count.
#[derive(Clone, Copy)]
pub struct Layout {
    pub fields: usize,
    pub functions_at: usize,
    pub functions: usize,
    pub nodes_at: usize,
    pub nodes: usize,
}

// A node's five parts as they stand in the file.
#[derive(Clone, Copy)]
pub struct Node {
    pub kind: usize,
    pub arg: usize,
    pub first: usize,
    pub second: usize,
    pub third: usize,
}

// The byte at a place; one that is not there reads as 0.
pub fn byte_at(file: &[u8], at: usize) -> usize
    ensures value { result ≡ byte_at file.now at }
    ensures upper_bound { result ≤ 255 }
{
    if at < file.len() {
        file[at] as usize
    } else {
        0
    }
}

// The number of two bytes at a place, low byte first.
pub fn two_bytes_at(file: &[u8], at: usize) -> usize
    ensures value { result ≡ two_bytes_at file.now at }
    ensures upper_bound { result ≤ 65535 }
{
    if at < file.len() {
        byte_at(file, at) + 256 * byte_at(file, at + 1)
    } else {
        0
    }
}

// Where the function that begins at a place ends.
pub fn function_end(file: &[u8], at: usize) -> usize
    requires { at ≤ 200000 }
    ensures value { result ≡ function_end file.now at }
    ensures upper_bound { result ≤ at + 513 }
{
    at + 1 + 2 * byte_at(file, at) + 2
}

// Where the last of some functions ends.
fn functions_end(file: &[u8], from: usize, count: usize) -> usize
    requires { from + 513 * count ≤ 200000 }
    ensures value { result ≡ functions_end count file.now from }
    ensures upper_bound { result ≤ from + 513 * count }
{
    let mut at = from;
    for _ in 0..count {
        at = function_end(file, at);
    }
    at
}

// Where the sections of a file lie, whatever its bytes are.
pub fn read_layout(file: &[u8]) -> Layout
    ensures { IsLayout file.now result }
{
    let fields = byte_at(file, 0);
    let functions_at = 1 + 3 * fields;
    let functions = byte_at(file, functions_at);
    let nodes_at = functions_end(file, functions_at + 1, functions);
    let nodes = two_bytes_at(file, nodes_at);
    Layout {
        fields,
        functions_at,
        functions,
        nodes_at,
        nodes,
    }
}

// The node whose eight bytes begin at a place; written nodes are read so.
pub fn read_node(file: &[u8], at: usize) -> Node
    requires { at ≤ 1000000 }
    ensures { IsNode (node_record file.now at) result }
{
    let kind = byte_at(file, at);
    let arg = byte_at(file, at + 1);
    let first = two_bytes_at(file, at + 2);
    let second = two_bytes_at(file, at + 4);
    let third = two_bytes_at(file, at + 6);
    Node {
        kind,
        arg,
        first,
        second,
        third,
    }
}
