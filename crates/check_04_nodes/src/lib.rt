// Number 4 for one node: its arg names a field, and its children are below it.
#![tactic(auto)]

ghost use Rattle.std.specs.Prelude.{◌≡◌, ◌-◌};
ghost use Rattle.kit.specs.Names.{leb};
ghost use Rattle.definitions.specs.Basics.{any};
ghost use Rattle.definitions.specs.ContractFile.{node_of, fields_named, children};
ghost use Rattle.file_bytes.specs.Node.{record_of};
ghost use Rattle.check_04_nodes.specs.Naming.{node_names_nothing};

use check_03_declarations::is_final_code;
use file_bytes::Node;
use file_children::child_count;
use file_kinds::*;

// The field of an owner code 16+f.
pub fn final_number(code: usize) -> usize
    ensures { result ≡ code - 16 }
{
    if FINAL_CODES <= code {
        code - FINAL_CODES
    } else {
        0
    }
}

// Whether a node's arg names no field: by its number, or by an owner code.
fn arg_names_nothing(fields: usize, node: Node) -> bool
    ensures { result ≡ any (leb fields) (fields_named (node_of (record_of node))) }
{
    let kind = node.kind;
    let arg = node.arg;
    if kind == REVEAL {
        return is_final_code(arg) & (fields <= final_number(arg));
    }
    let by_number = (kind == FIELD)
        | (kind == ENTRY)
        | (kind == FIELD_TAKES)
        | (kind == ENTRY_TAKES);
    by_number & (fields <= arg)
}

// Whether some child's number is not below n.
fn child_not_below(n: usize, node: Node) -> bool
    ensures { result ≡ any (leb n) (children (node_of (record_of node))) }
{
    let count = child_count(node.kind);
    if count == 0 {
        return false;
    }
    (n <= node.first) | (1 < count) & ((n <= node.second) | (2 < count) & (n <= node.third))
}

// "4. A field number, in owner codes too, names nothing, .. or a child's number isn't below its parent's.": of the node n.
pub fn node_names_nothing(fields: usize, n: usize, node: Node) -> bool
    ensures { result ≡ node_names_nothing fields n (record_of node) }
{
    arg_names_nothing(fields, node) | child_not_below(n, node)
}
