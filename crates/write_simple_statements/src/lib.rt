// 01, Rewriting: the nodes of a statement that holds no other, without the steps before it.
#![tactic(auto)]

ghost use Rattle.std.specs.Prelude.{◌≡◌, ◌+◌, ◌<◌, ◌≤◌};
ghost use Rattle.definitions.specs.ContractFile.{node_count};
ghost use Rattle.theory_trees.specs.Trees.{expression_in, statement_in};
ghost use Rattle.file_accepted.specs.Context.{nodes_in, scope_in};
ghost use Rattle.rewrite_owners.specs.Codes.{FieldsListed};
ghost use Rattle.write_reads.specs.Forms.{kind_at};
ghost use Rattle.write_nodes.specs.Numbering.{Room, Numbered};
ghost use Rattle.write_simple_statements.specs.Places.{placed_form, placed_count, PrivatePlace};
ghost use Rattle.write_simple_statements.specs.Statements.{simple_form, simple_count};

use file_accepted::CheckedFunction;
use file_decoded::node_at;
use file_kinds::*;
use rewrite_owners::{field_owner, is_public};
use write_body_expressions::write_body_form;
use write_nodes::{put_above_one, put_above_two, put_leaf};
use write_places::Next;
use write_variable_counts::body_count;

// Whether the places of field f are private.
pub fn is_private_place(file: &[u8], f: usize) -> bool
    requires { (f ≤ 255) × (FieldsListed file.now) }
    ensures { PrivatePlace file.now f result }
{
    field_owner(file, f) != EVERYONE_BYTE
}

// The form of node n when it is put into a place.
pub fn write_placed_form(
    function: &CheckedFunction,
    private: bool,
    n: usize,
    next: Next,
    out: &mut [u8],
) -> usize
    requires { (n < node_count function.now.file.now)
        × ((next.variable + placed_count (scope_in function.now.file.now function.now.at) private
        (expression_in (nodes_in function.now.file.now) n) ≤ 65535)
        × (Room out.old next.at next.base
        (placed_form (scope_in function.now.file.now function.now.at) private
        (expression_in (nodes_in function.now.file.now) n) next.variable))) }
    ensures { Numbered out.old out.new next.at next.base
        (placed_form (scope_in function.now.file.now function.now.at) private
        (expression_in (nodes_in function.now.file.now) n) next.variable) result }
{
    let i = next.variable;
    let at = next.at;
    let base = next.base;
    if private {
        if is_public(function, n) {
            put_leaf(VARIABLE_BYTE, 0, i, 0, out, at)
        } else {
            write_body_form(function, n, i, out, at, base)
        }
    } else {
        write_body_form(function, n, i, out, at, base)
    }
}

// An assignment to a field: the value as the place asks for it, and the statement above it.
fn write_field_form(
    function: &CheckedFunction,
    n: usize,
    i: usize,
    out: &mut [u8],
    at: usize,
    base: usize,
) -> usize
    requires { (kind_at function.now.source.now n ≡ 18)
        × ((n < node_count function.now.file.now)
        × ((i + simple_count (scope_in function.now.file.now function.now.at) (statement_in (nodes_in function.now.file.now) n) ≤ 65535)
        × (Room out.old at base (simple_form (scope_in function.now.file.now function.now.at)
        (statement_in (nodes_in function.now.file.now) n) i)))) }
    ensures { Numbered out.old out.new at base
        (simple_form (scope_in function.now.file.now function.now.at) (statement_in (nodes_in function.now.file.now) n) i) result }
{
    let node = node_at(function.source, n);
    let arg = node.arg as u8;
    let private = is_private_place(function.file, node.arg);
    let value = write_placed_form(
        function,
        private,
        node.first,
        Next {
            variable: i,
            at,
            base,
        },
        out,
    );
    put_above_one(FIELD_TAKES_BYTE, arg, value, out, at, base)
}

// An assignment to an entry: key and value, and the statement above them.
fn write_entry_form(
    function: &CheckedFunction,
    n: usize,
    i: usize,
    out: &mut [u8],
    at: usize,
    base: usize,
) -> usize
    requires { (kind_at function.now.source.now n ≡ 19)
        × ((n < node_count function.now.file.now)
        × ((i + simple_count (scope_in function.now.file.now function.now.at) (statement_in (nodes_in function.now.file.now) n) ≤ 65535)
        × (Room out.old at base (simple_form (scope_in function.now.file.now function.now.at)
        (statement_in (nodes_in function.now.file.now) n) i)))) }
    ensures { Numbered out.old out.new at base
        (simple_form (scope_in function.now.file.now function.now.at) (statement_in (nodes_in function.now.file.now) n) i) result }
{
    let node = node_at(function.source, n);
    let arg = node.arg as u8;
    let private = is_private_place(function.file, node.arg);
    let j = i + body_count(function, node.first);
    let key = write_body_form(function, node.first, i, out, at, base);
    let a = at + 8 * key;
    let b = base + key;
    let value = write_placed_form(
        function,
        private,
        node.second,
        Next {
            variable: j,
            at: a,
            base: b,
        },
        out,
    );
    put_above_two(ENTRY_TAKES_BYTE, arg, key, value, out, at, base)
}

// A requirement: the condition and the statement above it.
fn write_require_form(
    function: &CheckedFunction,
    n: usize,
    i: usize,
    out: &mut [u8],
    at: usize,
    base: usize,
) -> usize
    requires { (kind_at function.now.source.now n ≡ 20)
        × ((n < node_count function.now.file.now)
        × ((i + simple_count (scope_in function.now.file.now function.now.at) (statement_in (nodes_in function.now.file.now) n) ≤ 65535)
        × (Room out.old at base (simple_form (scope_in function.now.file.now function.now.at)
        (statement_in (nodes_in function.now.file.now) n) i)))) }
    ensures { Numbered out.old out.new at base
        (simple_form (scope_in function.now.file.now function.now.at) (statement_in (nodes_in function.now.file.now) n) i) result }
{
    let node = node_at(function.source, n);
    let condition = write_body_form(function, node.first, i, out, at, base);
    put_above_one(REQUIRE_BYTE, 0, condition, out, at, base)
}

// The form of node n, a statement that holds no other, whose first variable is number i; the answer is how many nodes it has.
pub fn write_statement_form(
    function: &CheckedFunction,
    n: usize,
    i: usize,
    out: &mut [u8],
    at: usize,
    base: usize,
) -> usize
    requires { (n < node_count function.now.file.now)
        × ((i + simple_count (scope_in function.now.file.now function.now.at) (statement_in (nodes_in function.now.file.now) n) ≤ 65535)
        × (Room out.old at base (simple_form (scope_in function.now.file.now function.now.at)
        (statement_in (nodes_in function.now.file.now) n) i))) }
    ensures { Numbered out.old out.new at base
        (simple_form (scope_in function.now.file.now function.now.at) (statement_in (nodes_in function.now.file.now) n) i) result }
{
    let node = node_at(function.source, n);
    let kind = node.kind;
    match kind {
        SEQUENCE => put_leaf(SKIP_BYTE, 0, 0, 0, out, at),
        FIELD_TAKES => write_field_form(function, n, i, out, at, base),
        ENTRY_TAKES => write_entry_form(function, n, i, out, at, base),
        REQUIRE => write_require_form(function, n, i, out, at, base),
        IF => put_leaf(SKIP_BYTE, 0, 0, 0, out, at),
        _ => put_leaf(SKIP_BYTE, 0, 0, 0, out, at),
    }
}
