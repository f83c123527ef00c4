// 01, Owners: the owner codes of fields, parameters, names and expressions, read from the file.
#![tactic(auto)]

ghost use Rattle.std.specs.Prelude.{◌≡◌, ◌<◌, ◌≤◌};
ghost use Rattle.kit.specs.Names.{cond, none, some};
ghost use Rattle.definitions.specs.ContractFile.{final_name, parameter_name, field_at, parameter_at, is_final, byte_at};
ghost use Rattle.definitions.specs.ContractFile.{field_count, node_count, owner_code, field_owner_code};
ghost use Rattle.definitions.specs.Owners.{name_of, owner_of, is_public_address, parameter_owner, is_public};
ghost use Rattle.theory_trees.specs.Trees.{expression_in};
ghost use Rattle.file_accepted.specs.Context.{nodes_in, fields_in, parameters_in, scope_in};
ghost use Rattle.rewrite_owners.specs.Codes.{name_code, parts_code, place_code, FieldsListed};

use file_accepted::CheckedFunction;
use file_bytes::byte_at;
use file_decoded::node_at;
use file_kinds::*;

// The code for an expression that is not a name: no name has it.
pub const NO_NAME: u8 = 0;

// The owner code that field f declares; a field that is missing belongs to all.
pub fn field_owner(file: &[u8], f: usize) -> u8
    requires { (f ≤ 255) × (FieldsListed file.now) }
    ensures { result ≡ field_owner_code (field_at (fields_in file.now) f).owner }
{
    if f < byte_at(file, 0) {
        byte_at(file, 1 + 3 * f + 2) as u8
    } else {
        EVERYONE_BYTE
    }
}

// The name code of field f: its own if it is final.
fn final_code(file: &[u8], f: usize) -> u8
    requires { field_count file.now ≤ 64 }
    ensures { result ≡ name_code (cond (is_final (field_at (fields_in file.now) f).shape) (some (final_name f)) none) }
{
    if f < byte_at(file, 0) {
        if byte_at(file, 1 + 3 * f) == FINAL {
            (FINAL_CODES + f) as u8
        } else {
            NO_NAME
        }
    } else {
        NO_NAME
    }
}

// The name code of parameter k: its own if it is a public address.
fn address_code(file: &[u8], function_at: usize, k: usize) -> u8
    requires { (function_at ≤ 200000) × (byte_at file.now function_at ≤ 8) }
    ensures { result ≡ name_code (cond (is_public_address (parameter_at (parameters_in file.now function_at) k))
        (some (parameter_name k))
        none) }
{
    if k < byte_at(file, function_at) {
        let kind = byte_at(file, function_at + 1 + 2 * k);
        let owner = byte_at(file, function_at + 1 + 2 * k + 1);
        if kind < ADDRESS {
            NO_NAME
        } else if owner == EVERYONE_CODE {
            (PARAMETER_CODES + k) as u8
        } else {
            NO_NAME
        }
    } else {
        NO_NAME
    }
}

// The owner code of parameter k; one that is missing reads as private.
pub fn parameter_code(file: &[u8], function_at: usize, k: usize) -> u8
    requires { (function_at ≤ 200000) × (byte_at file.now function_at ≤ 8) }
    ensures { result ≡ owner_code (parameter_owner (parameter_at (parameters_in file.now function_at) k)) }
{
    if k < byte_at(file, function_at) {
        if byte_at(file, function_at + 1 + 2 * k + 1) == EVERYONE_CODE {
            EVERYONE_BYTE
        } else {
            CALLER_BYTE
        }
    } else {
        CALLER_BYTE
    }
}

fn parts_code(left: u8, right: u8) -> u8
    ensures { result ≡ parts_code left right }
{
    if left == EVERYONE_BYTE {
        if right == EVERYONE_BYTE {
            EVERYONE_BYTE
        } else {
            CALLER_BYTE
        }
    } else {
        CALLER_BYTE
    }
}

// The owner of a place, from its field's owner code and the code of the name used as key.
pub fn place_code(owner: u8, key: u8) -> u8
    ensures { result ≡ place_code owner key }
{
    if owner == KEY_BYTE {
        if key == NO_NAME { CALLER_BYTE } else { key }
    } else {
        owner
    }
}

// The name code of node n.
pub fn name_code(function: &CheckedFunction, n: usize) -> u8
    requires { n < node_count function.now.file.now }
    ensures { result ≡ name_code (name_of (scope_in function.now.file.now function.now.at)
        (expression_in (nodes_in function.now.file.now) n)) }
{
    let node = node_at(function.source, n);
    let kind = node.kind;
    match kind {
        CONSTANT => NO_NAME,
        FIELD => final_code(function.file, node.arg),
        ENTRY => NO_NAME,
        PARAMETER => address_code(function.file, function.at, node.arg),
        OPERATOR => NO_NAME,
        NOT => NO_NAME,
        REVEAL => NO_NAME,
        _ => CALLER_BYTE,
    }
}

// The owner code of node n. An operator whose left operand is private is not gone through further.
pub fn owner_code(function: &CheckedFunction, n: usize) -> u8
    requires { n < node_count function.now.file.now }
    ensures { result ≡ owner_code (owner_of (scope_in function.now.file.now function.now.at)
        (expression_in (nodes_in function.now.file.now) n)) }
{
    let node = node_at(function.source, n);
    let kind = node.kind;
    match kind {
        CONSTANT => EVERYONE_BYTE,
        FIELD => place_code(field_owner(function.file, node.arg), NO_NAME),
        ENTRY => place_code(
            field_owner(function.file, node.arg),
            name_code(function, node.first),
        ),
        PARAMETER => parameter_code(function.file, function.at, node.arg),
        OPERATOR => {
            if owner_code(function, node.first) == EVERYONE_BYTE {
                parts_code(owner_code(function, node.second), EVERYONE_BYTE)
            } else {
                CALLER_BYTE
            }
        }
        NOT => parts_code(owner_code(function, node.first), EVERYONE_BYTE),
        REVEAL => node.arg as u8,
        _ => EVERYONE_BYTE,
    }
}

// Whether node n belongs to all.
pub fn is_public(function: &CheckedFunction, n: usize) -> bool
    requires { n < node_count function.now.file.now }
    ensures { result ≡ is_public (scope_in function.now.file.now function.now.at) (expression_in (nodes_in function.now.file.now) n) }
{
    owner_code(function, n) == EVERYONE_BYTE
}
