// 01, Runs and views: "A call walks the function's written body on the ledger's plain values and cells": the body's expressions.
#![tactic(auto)]

ghost use Rattle.std.specs.Prelude.{◌≡◌, ◌&&◌, ◌*◌, ◌<◌, ◌≤◌};
ghost use Rattle.kit.specs.Names.{true};
ghost use Rattle.definitions.specs.ContractFile.{field_count, operator_of};
ghost use Rattle.definitions.specs.Original.{position, operate, operates, negate};
ghost use Rattle.definitions.specs.Ledger.{plain, content_at, plain_number};
ghost use Rattle.file_accepted.specs.Context.{fields_in};
ghost use Rattle.ledger_contents.specs.Contents.{content_of_code, contents_of};
ghost use Rattle.write_trees.specs.Trees.{body_in};
ghost use Rattle.write_trees.specs.Table.{count_of, table_of, Readable};
ghost use Rattle.walk_expressions.specs.Evaluation.{state_of, content_from, walked_from, Gives};

use file_bytes::read_node;
use file_kinds::*;
use ledger_arithmetic::{negated, operated};
use ledger_circuits::constant_of;
use ledger_contents::{Content, content_at};
use ledger_places::{number_at, position};
use walk_numbers::{Walked, number_of};

fn given_number(number: u32) -> Walked
    ensures { Gives true (plain number) result }
{
    Walked {
        walked: true,
        content: Content::Plain(number),
    }
}

fn given_item(items: &[u32], i: usize) -> Walked
    ensures { Gives true (content_at (contents_of items.now) i) result }
{
    let content = content_at(items, i);
    Walked {
        walked: true,
        content,
    }
}

// The content of field f's place at a key.
fn given_place(file: &[u8], places: &[u32], f: usize, key: u32, walked: bool) -> Walked
    requires { field_count file.now ≤ 64 }
    ensures { Gives walked (content_at (contents_of places.now) (position (fields_in file.now) f key)) result }
{
    let content = content_at(places, position(file, f, key as usize));
    Walked { walked, content }
}

// "A zero divisor fails the call."
pub fn divides(code: usize, divisor: u32) -> bool
    ensures { result ≡ operates (operator_of code) divisor }
{
    if divisor == 0 {
        match code {
            DIVIDED => false,
            REMAINDER => false,
            _ => true,
        }
    } else {
        true
    }
}

// Both are worked out, so that a failed part is one path through its function.
pub fn both_walked(left: bool, right: bool) -> bool
    ensures { result ≡ left && right }
{
    if left { right } else { false }
}

fn combined(code: usize, left: Walked, right: Walked) -> Walked
    ensures { Gives
        (left.walked && right.walked && operates (operator_of code) (plain_number (content_of_code right.content)))
        (plain (operate (operator_of code)
        (plain_number (content_of_code left.content))
        (plain_number (content_of_code right.content)))) result }
{
    let first = number_of(left);
    let second = number_of(right);
    let operands = both_walked(left.walked, right.walked);
    let number = operated(code, first, second);
    Walked {
        walked: both_walked(operands, divides(code, second)),
        content: Content::Plain(number),
    }
}

fn opposite(part: Walked) -> Walked
    ensures { Gives part.walked (plain (negate (plain_number (content_of_code part.content)))) result }
{
    let number = negated(number_of(part));
    Walked {
        walked: part.walked,
        content: Content::Plain(number),
    }
}

// The expression whose root is node n.
pub fn evaluate(
    nodes: &[u8],
    file: &[u8],
    addresses: &[u32],
    parameters: &[u32],
    places: &[u32],
    variables: &[u32],
    n: usize,
) -> Walked
    requires { (n < count_of nodes.now) × ((Readable nodes.now) × (field_count file.now ≤ 64)) }
    ensures { Gives (walked_from file.now addresses.now parameters.now
        (state_of places.now variables.now) (body_in (table_of nodes.now) n))
        (content_from file.now addresses.now parameters.now
        (state_of places.now variables.now) (body_in (table_of nodes.now) n)) result }
{
    let node = read_node(nodes, 8 * n);
    let kind = node.kind;
    let first = node.first;
    let other = node.second;
    match kind {
        CONSTANT => given_number(constant_of(first, other)),
        FIELD => given_place(file, places, node.arg, 0, true),
        ENTRY => {
            let key = evaluate(nodes, file, addresses, parameters, places, variables, first);
            given_place(file, places, node.arg, number_of(key), key.walked)
        }
        PARAMETER => given_item(parameters, node.arg),
        OPERATOR => {
            let left = evaluate(nodes, file, addresses, parameters, places, variables, first);
            let right = evaluate(nodes, file, addresses, parameters, places, variables, other);
            combined(node.arg, left, right)
        }
        NOT => opposite(evaluate(nodes, file, addresses, parameters, places, variables, first)),
        VARIABLE => given_item(variables, first),
        _ => given_number(number_at(addresses, 1)),
    }
}
