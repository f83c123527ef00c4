// 01, Rewriting: the nodes of an expression's form in a circuit, written behind others.
#![tactic(auto)]

ghost use Rattle.std.specs.Prelude.{◌≡◌, ◌+◌, ◌<◌, ◌≤◌};
ghost use Rattle.kit.specs.Names.{ℕ, length};
ghost use Rattle.definitions.specs.ContractFile.{node_count};
ghost use Rattle.definitions.specs.Rewriting.{leaf};
ghost use Rattle.theory_trees.specs.Trees.{expression_in};
ghost use Rattle.file_accepted.specs.Context.{nodes_in, scope_in};
ghost use Rattle.write_nodes.specs.Numbering.{Room, Numbered};
ghost use Rattle.write_variable_counts.specs.Counts.{circuit_count};
ghost use Rattle.write_reads.specs.Forms.{circuit_form, read_kind, kind_at};
ghost use Rattle.write_circuit_expressions.specs.Forms.{FormWritten};

use file_accepted::CheckedFunction;
use file_decoded::node_at;
use file_kinds::*;
use rewrite_owners::is_public;
use write_nodes::{put_above_one, put_above_two, put_leaf};
use write_reads::put_read;
use write_variable_counts::{body_count, is_public_division};

// How many nodes a form has, and the number of the next variable.
#[derive(Clone, Copy)]
pub struct FormExtent {
    pub nodes: usize,
    pub next: usize,
}

// A leaf that makes no variable, so that number i is still the next one's.
fn put_plain(
    kind: u8,
    arg: u8,
    first: usize,
    second: usize,
    i: usize,
    out: &mut [u8],
    at: usize,
) -> FormExtent
    requires { at + 8 ≤ length out.old }
    ensures { ((base : ℕ) → Numbered out.old out.new at base (leaf kind arg first second) result.nodes)
        × (result.next ≡ i) }
{
    let nodes = put_leaf(kind, arg, first, second, out, at);
    FormExtent { nodes, next: i }
}

// A form that is a variable, the last one that it makes, so that the number behind it is the next one's.
fn put_variable(public: bool, variable: usize, out: &mut [u8], at: usize) -> FormExtent
    requires { (variable + 1 ≤ 65535) × (at + 8 ≤ length out.old) }
    ensures { ((base : ℕ) → Numbered out.old out.new at base (leaf (read_kind public) 0 variable 0) result.nodes)
        × (result.next ≡ variable + 1) }
{
    let nodes = put_read(public, variable, out, at);
    FormExtent {
        nodes,
        next: variable + 1,
    }
}

// The circuit's form of node n, whose first variable is number i. The answer has the number of the next one, with which
// an operator begins its right operand: it need not count the variables of the left one.
#[cycle(write_circuit_form_write_circuit_operator)]
pub fn write_circuit_form(
    function: &CheckedFunction,
    n: usize,
    i: usize,
    out: &mut [u8],
    at: usize,
    base: usize,
) -> FormExtent
    requires { (n < node_count function.now.file.now)
        × ((i + circuit_count (scope_in function.now.file.now function.now.at) (expression_in (nodes_in function.now.file.now) n) ≤ 65535)
        × (Room out.old at base (circuit_form (scope_in function.now.file.now function.now.at)
        (expression_in (nodes_in function.now.file.now) n) i))) }
    ensures { FormWritten function.now.file.now function.now.at n i out.old out.new at base result }
{
    let node = node_at(function.source, n);
    let kind = node.kind;
    let arg = node.arg as u8;
    match kind {
        CONSTANT => put_plain(CONSTANT_BYTE, arg, node.first, node.second, i, out, at),
        FIELD => put_variable(is_public(function, n), i, out, at),
        ENTRY => {
            let j = i + body_count(function, node.first);
            put_variable(is_public(function, n), j, out, at)
        }
        PARAMETER => put_variable(is_public(function, n), i, out, at),
        OPERATOR => write_circuit_operator(function, n, i, out, at, base),
        NOT => {
            let part = write_circuit_form(function, node.first, i, out, at, base);
            let nodes = put_above_one(NOT_BYTE, 0, part.nodes, out, at, base);
            FormExtent {
                nodes,
                next: part.next,
            }
        }
        REVEAL => write_circuit_form(function, node.first, i, out, at, base),
        _ => put_plain(ME_BYTE, 0, 0, 0, i, out, at),
    }
}

// A public division is a variable; any other operator stands above its operands.
#[cycle(write_circuit_form_write_circuit_operator)]
fn write_circuit_operator(
    function: &CheckedFunction,
    n: usize,
    i: usize,
    out: &mut [u8],
    at: usize,
    base: usize,
) -> FormExtent
    requires { (kind_at function.now.source.now n ≡ 6)
        × ((n < node_count function.now.file.now)
        × ((i + circuit_count (scope_in function.now.file.now function.now.at) (expression_in (nodes_in function.now.file.now) n) ≤ 65535)
        × (Room out.old at base (circuit_form (scope_in function.now.file.now function.now.at)
        (expression_in (nodes_in function.now.file.now) n) i)))) }
    ensures { FormWritten function.now.file.now function.now.at n i out.old out.new at base result }
{
    let node = node_at(function.source, n);
    let arg = node.arg as u8;
    if is_public_division(function, n, node.arg) {
        let j = i + body_count(function, node.first);
        let k = j + body_count(function, node.second);
        put_variable(true, k, out, at)
    } else {
        let left = write_circuit_form(function, node.first, i, out, at, base);
        let a = at + 8 * left.nodes;
        let b = base + left.nodes;
        let j = left.next;
        let right = write_circuit_form(function, node.second, j, out, a, b);
        let nodes = put_above_two(OPERATOR_BYTE, arg, left.nodes, right.nodes, out, at, base);
        FormExtent {
            nodes,
            next: right.next,
        }
    }
}
