// 01, Rewriting: how many variables the body's and the circuit's form of a node make.
#![tactic(auto)]

ghost use Rattle.std.specs.Prelude.{◌≡◌, ◌&&◌, ◌<◌, ◌≤◌};
ghost use Rattle.definitions.specs.ContractFile.{is_division, node_count, operator_of};
ghost use Rattle.definitions.specs.Owners.{is_public};
ghost use Rattle.theory_trees.specs.Trees.{expression_in};
ghost use Rattle.file_accepted.specs.Context.{nodes_in, scope_in};
ghost use Rattle.write_variable_counts.specs.Counts.{body_count, circuit_count};

use file_accepted::CheckedFunction;
use file_decoded::node_at;
use file_kinds::*;
use rewrite_owners::is_public;

// Whether node n, an operator of a code, is a division that belongs to all.
pub fn is_public_division(function: &CheckedFunction, n: usize, code: usize) -> bool
    requires { n < node_count function.now.file.now }
    ensures { result ≡ (is_public (scope_in function.now.file.now function.now.at) (expression_in (nodes_in function.now.file.now) n)
        && is_division (operator_of code)) }
{
    match code {
        DIVIDED => is_public(function, n),
        REMAINDER => is_public(function, n),
        _ => false,
    }
}

// How many variables the body form of node n makes: a part's first number is known before the part is written.
#[cycle(body_count_circuit_count)]
pub fn body_count(function: &CheckedFunction, n: usize) -> usize
    requires { (n < node_count function.now.file.now)
        × (body_count (scope_in function.now.file.now function.now.at) (expression_in (nodes_in function.now.file.now) n) ≤ 65535) }
    ensures { result ≡ body_count (scope_in function.now.file.now function.now.at) (expression_in (nodes_in function.now.file.now) n) }
{
    let node = node_at(function.source, n);
    let kind = node.kind;
    match kind {
        CONSTANT => 0,
        FIELD => 0,
        ENTRY => body_count(function, node.first),
        PARAMETER => 0,
        OPERATOR => {
            if is_public(function, n) {
                let left = body_count(function, node.first);
                let right = body_count(function, node.second);
                left + right
            } else {
                circuit_count(function, n) + 1
            }
        }
        NOT => {
            if is_public(function, n) {
                body_count(function, node.first)
            } else {
                circuit_count(function, n) + 1
            }
        }
        REVEAL => circuit_count(function, n) + 1,
        _ => 0,
    }
}

// How many variables the circuit form of node n makes.
#[cycle(body_count_circuit_count)]
pub fn circuit_count(function: &CheckedFunction, n: usize) -> usize
    requires { (n < node_count function.now.file.now)
        × (circuit_count (scope_in function.now.file.now function.now.at) (expression_in (nodes_in function.now.file.now) n) ≤ 65535) }
    ensures { result ≡ circuit_count (scope_in function.now.file.now function.now.at) (expression_in (nodes_in function.now.file.now) n) }
{
    let node = node_at(function.source, n);
    let kind = node.kind;
    match kind {
        CONSTANT => 0,
        FIELD => 1,
        ENTRY => body_count(function, node.first) + 1,
        PARAMETER => 1,
        OPERATOR => {
            if is_public_division(function, n, node.arg) {
                let left = body_count(function, node.first);
                let right = body_count(function, node.second);
                left + right + 1
            } else {
                let left = circuit_count(function, node.first);
                let right = circuit_count(function, node.second);
                left + right
            }
        }
        NOT => circuit_count(function, node.first),
        REVEAL => circuit_count(function, node.first),
        _ => 0,
    }
}
