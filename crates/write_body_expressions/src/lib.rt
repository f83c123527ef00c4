// 01, Rewriting: the nodes of an expression's form in the body, written behind others.
#![tactic(auto)]

ghost use Rattle.std.specs.Prelude.{◌≡◌, ◌+◌, ◌<◌, ◌≤◌};
ghost use Rattle.definitions.specs.ContractFile.{node_count, node};
ghost use Rattle.theory_trees.specs.Trees.{expression_in};
ghost use Rattle.file_accepted.specs.Context.{nodes_in, scope_in};
ghost use Rattle.write_nodes.specs.Numbering.{Room, Numbered};
ghost use Rattle.write_variable_counts.specs.Counts.{body_count};
ghost use Rattle.write_reads.specs.Forms.{body_form, kind_at};

use file_accepted::CheckedFunction;
use file_decoded::node_at;
use file_kinds::*;
use rewrite_owners::is_public;
use write_nodes::{put_above_one, put_above_two, put_leaf};
use write_variable_counts::body_count;

// The body's form of node n, whose first variable is number i; the answer is how many nodes it has.
#[cycle(write_body_form_write_body_negation_write_body_operator)]
pub fn write_body_form(
    function: &CheckedFunction,
    n: usize,
    i: usize,
    out: &mut [u8],
    at: usize,
    base: usize,
) -> usize
    requires { (n < node_count function.now.file.now)
        × ((i + body_count (scope_in function.now.file.now function.now.at) (expression_in (nodes_in function.now.file.now) n) ≤ 65535)
        × (Room out.old at base (body_form (scope_in function.now.file.now function.now.at)
        (expression_in (nodes_in function.now.file.now) n) i))) }
    ensures { Numbered out.old out.new at base
        (body_form (scope_in function.now.file.now function.now.at) (expression_in (nodes_in function.now.file.now) n) i) result }
{
    let node = node_at(function.source, n);
    let kind = node.kind;
    let arg = node.arg as u8;
    match kind {
        CONSTANT => put_leaf(CONSTANT_BYTE, arg, node.first, node.second, out, at),
        FIELD => put_leaf(FIELD_BYTE, arg, 0, 0, out, at),
        ENTRY => {
            let key = write_body_form(function, node.first, i, out, at, base);
            put_above_one(ENTRY_BYTE, arg, key, out, at, base)
        }
        PARAMETER => put_leaf(PARAMETER_BYTE, arg, 0, 0, out, at),
        OPERATOR => write_body_operator(function, n, i, out, at, base),
        NOT => write_body_negation(function, n, i, out, at, base),
        REVEAL => put_leaf(VARIABLE_BYTE, 0, i, 0, out, at),
        _ => put_leaf(ME_BYTE, 0, 0, 0, out, at),
    }
}

// An operator on public operands is kept above them; any other is a variable.
#[cycle(write_body_form_write_body_negation_write_body_operator)]
pub fn write_body_operator(
    function: &CheckedFunction,
    n: usize,
    i: usize,
    out: &mut [u8],
    at: usize,
    base: usize,
) -> usize
    requires { (kind_at function.now.source.now n ≡ 6)
        × ((n < node_count function.now.file.now)
        × ((i + body_count (scope_in function.now.file.now function.now.at) (expression_in (nodes_in function.now.file.now) n) ≤ 65535)
        × (Room out.old at base (body_form (scope_in function.now.file.now function.now.at)
        (expression_in (nodes_in function.now.file.now) n) i)))) }
    ensures { Numbered out.old out.new at base
        (body_form (scope_in function.now.file.now function.now.at) (expression_in (nodes_in function.now.file.now) n) i) result }
{
    let node = node_at(function.source, n);
    let arg = node.arg as u8;
    if is_public(function, n) {
        let j = i + body_count(function, node.first);
        let left = write_body_form(function, node.first, i, out, at, base);
        let a = at + 8 * left;
        let b = base + left;
        let right = write_body_form(function, node.second, j, out, a, b);
        put_above_two(OPERATOR_BYTE, arg, left, right, out, at, base)
    } else {
        put_leaf(VARIABLE_BYTE, 0, i, 0, out, at)
    }
}

// A negation of a public part is kept above it; any other is a variable.
#[cycle(write_body_form_write_body_negation_write_body_operator)]
pub fn write_body_negation(
    function: &CheckedFunction,
    n: usize,
    i: usize,
    out: &mut [u8],
    at: usize,
    base: usize,
) -> usize
    requires { (kind_at function.now.source.now n ≡ 7)
        × ((n < node_count function.now.file.now)
        × ((i + body_count (scope_in function.now.file.now function.now.at) (expression_in (nodes_in function.now.file.now) n) ≤ 65535)
        × (Room out.old at base (body_form (scope_in function.now.file.now function.now.at)
        (expression_in (nodes_in function.now.file.now) n) i)))) }
    ensures { Numbered out.old out.new at base
        (body_form (scope_in function.now.file.now function.now.at) (expression_in (nodes_in function.now.file.now) n) i) result }
{
    let node = node_at(function.source, n);
    if is_public(function, n) {
        let part = write_body_form(function, node.first, i, out, at, base);
        put_above_one(NOT_BYTE, 0, part, out, at, base)
    } else {
        put_leaf(VARIABLE_BYTE, 0, i, 0, out, at)
    }
}
