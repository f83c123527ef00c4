// The data types of expressions, read from the file.
#![tactic(auto)]

ghost use Rattle.std.specs.Prelude.{◌≡◌, ◌<◌, ◌≤◌};
ghost use Rattle.definitions.specs.ContractFile.{field_at, parameter_at, byte_at, field_count, node_count, data_type_of};
ghost use Rattle.definitions.specs.ContractFile.{operator_of, result_type, type_of};
ghost use Rattle.theory_trees.specs.Trees.{expression_in};
ghost use Rattle.file_accepted.specs.Context.{nodes_in, fields_in, parameters_in, scope_in};

use file_accepted::CheckedFunction;
use file_bytes::byte_at;
use file_decoded::node_at;
use file_kinds::*;

// The type code of field f; a field that is missing is a bool.
pub fn field_type(file: &[u8], f: usize) -> usize
    requires { field_count file.now ≤ 64 }
    ensures { data_type_of result ≡ (field_at (fields_in file.now) f).type }
{
    if f < byte_at(file, 0) {
        byte_at(file, 1 + 3 * f + 1)
    } else {
        BOOL
    }
}

// The type code of parameter k; one that is missing is a bool.
pub fn parameter_type(file: &[u8], function_at: usize, k: usize) -> usize
    requires { (function_at ≤ 200000) × (byte_at file.now function_at ≤ 8) }
    ensures { data_type_of result ≡ (parameter_at (parameters_in file.now function_at) k).type }
{
    if k < byte_at(file, function_at) {
        byte_at(file, function_at + 1 + 2 * k)
    } else {
        BOOL
    }
}

// The type code of an operator's result.
fn operator_type(code: usize) -> usize
    ensures { data_type_of result ≡ result_type (operator_of code) }
{
    if code < LESS {
        UINT
    } else if code < OPERATORS {
        BOOL
    } else {
        UINT
    }
}

// The type code of node n.
pub fn type_code(function: &CheckedFunction, n: usize) -> usize
    requires { n < node_count function.now.file.now }
    ensures { data_type_of result
        ≡ type_of (scope_in function.now.file.now function.now.at) (expression_in (nodes_in function.now.file.now) n) }
{
    let node = node_at(function.source, n);
    let kind = node.kind;
    match kind {
        CONSTANT => node.arg,
        FIELD => field_type(function.file, node.arg),
        ENTRY => field_type(function.file, node.arg),
        PARAMETER => parameter_type(function.file, function.at, node.arg),
        OPERATOR => operator_type(node.arg),
        NOT => BOOL,
        REVEAL => type_code(function, node.first),
        _ => ADDRESS,
    }
}
