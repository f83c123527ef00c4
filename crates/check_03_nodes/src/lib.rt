// Number 3 for one node: its kind, its arg and the parts that its kind doesn't use.
#![tactic(auto)]

ghost use Rattle.std.specs.Prelude.{◌≡◌, ◌&&◌, ◌≤◌};
ghost use Rattle.kit.specs.Names.{leb};
ghost use Rattle.definitions.specs.ContractFile.{data_type_of, is_of_type};
ghost use Rattle.definitions.specs.Numbers.{target_in_tables, node_in_tables};
ghost use Rattle.file_bytes.specs.Node.{record_of};

use check_03_declarations::is_final_code;
use file_bytes::Node;
use file_kinds::*;

// "reveal first to owner code arg (0, 1, 16+f, 128+k)"
fn target_in_tables(code: usize) -> bool
    ensures { result ≡ target_in_tables code }
{
    (code <= CALLER_CODE)
        | is_final_code(code)
        | (PARAMETER_CODES <= code) & (code < PARAMETER_CODES_END)
}

// "1 constant (arg type; ..)"; "bool 0 or 1, address 0 to 15"
fn constant_in_tables(arg: usize, value: usize) -> bool
    ensures { result ≡ (leb arg 2 && is_of_type (data_type_of arg) value) }
{
    (arg == BOOL) & (value < 2)
        | (arg == UINT) & (value < 4294967296)
        | (arg == ADDRESS) & (value < 16)
}

// "Parts that a kind doesn't use are zero."; a constant's value is first + 65,536 × second.
pub fn node_in_tables(node: Node) -> bool
    requires { (node.first ≤ 65535) × (node.second ≤ 65535) }
    ensures { result ≡ node_in_tables (record_of node) }
{
    let kind = node.kind;
    let arg = node.arg;
    let first = node.first;
    let second = node.second;
    let third = node.third;
    match kind {
        CONSTANT => constant_in_tables(arg, first + 65536 * second) & (third == 0),
        ME | SKIP => (arg == 0) & (first == 0) & (second == 0) & (third == 0),
        FIELD | PARAMETER => (first == 0) & (second == 0) & (third == 0),
        ENTRY | FIELD_TAKES => (second == 0) & (third == 0),
        OPERATOR => (arg <= OR) & (third == 0),
        NOT | REQUIRE => (arg == 0) & (second == 0) & (third == 0),
        REVEAL => target_in_tables(arg) & (second == 0) & (third == 0),
        SEQUENCE => (arg == 0) & (third == 0),
        ENTRY_TAKES => third == 0,
        IF => arg == 0,
        _ => false,
    }
}
