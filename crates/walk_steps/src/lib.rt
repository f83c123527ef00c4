// 01, Runs and views: one command of a written body that is neither a sequence nor an if, on flat contents that are lent.
#![tactic(auto)]

ghost use Rattle.std.specs.Prelude.{◌≡◌, ◌&&◌, ◌*◌, ◌<◌, ◌≤◌};
ghost use Rattle.kit.specs.Names.{true, false, set};
ghost use Rattle.definitions.specs.Basics.{is_true};
ghost use Rattle.definitions.specs.ContractFile.{field_count};
ghost use Rattle.definitions.specs.Original.{position};
ghost use Rattle.definitions.specs.Ledger.{plain_number};
ghost use Rattle.file_accepted.specs.Context.{fields_in};
ghost use Rattle.ledger_contents.specs.Contents.{content_of_code, contents_of};
ghost use Rattle.write_trees.specs.Trees.{record_at, command_in};
ghost use Rattle.write_trees.specs.Table.{count_of, table_of, Readable};
ghost use Rattle.ledger_circuits.specs.Circuits.{constraints_from};
ghost use Rattle.walk_expressions.specs.Evaluation.{state_of};
ghost use Rattle.walk_steps.specs.Walk.{after_from, completes_from, Ran, hands_on};

use file_bytes::read_node;
use file_kinds::*;
use ledger_contents::put_content;
use ledger_places::position;
use walk_expressions::{both_walked, evaluate};
use walk_numbers::{Walked, number_of};
use walk_verify::verify;

// Field f's place at a key takes a content. "Copies keep serials."
pub fn assign(file: &[u8], places: &mut [u32], f: usize, key: u32, value: Walked)
    requires { field_count file.now ≤ 64 }
    ensures { contents_of places.new
        ≡ set (contents_of places.old) (position (fields_in file.now) f key) (content_of_code value.content) }
{
    let content = value.content;
    put_content(places, position(file, f, key as usize), content);
}

// A require passes where its condition was worked out and is true.
pub fn is_walked_true(condition: Walked) -> bool
    ensures { result ≡ condition.walked && is_true (plain_number (content_of_code condition.content)) }
{
    both_walked(condition.walked, number_of(condition) != 0)
}

// A command that is neither a sequence nor an if.
pub fn step(
    nodes: &[u8],
    file: &[u8],
    addresses: &[u32],
    constraints: &[u16],
    parameters: &[u32],
    places: &mut [u32],
    variables: &mut [u32],
    n: usize,
) -> bool
    requires { (n < count_of nodes.now)
        × ((Readable nodes.now) × ((field_count file.now ≤ 64) × (hands_on (record_at (table_of nodes.now) n).kind ≡ false))) }
    ensures { Ran (completes_from file.now addresses.now parameters.now
        (constraints_from (table_of nodes.now) constraints.now)
        (state_of places.old variables.old) (command_in (table_of nodes.now) n))
        (after_from file.now addresses.now parameters.now
        (state_of places.old variables.old) (command_in (table_of nodes.now) n))
        (state_of places.new variables.new) result }
{
    let node = read_node(nodes, 8 * n);
    let kind = node.kind;
    let first = node.first;
    let other = node.second;
    match kind {
        FIELD_TAKES => {
            let value = evaluate(nodes, file, addresses, parameters, places, variables, first);
            assign(file, places, node.arg, 0, value);
            value.walked
        }
        ENTRY_TAKES => {
            let key = evaluate(nodes, file, addresses, parameters, places, variables, first);
            let value = evaluate(nodes, file, addresses, parameters, places, variables, other);
            assign(file, places, node.arg, number_of(key), value);
            both_walked(key.walked, value.walked)
        }
        REQUIRE => {
            let condition = evaluate(nodes, file, addresses, parameters, places, variables, first);
            is_walked_true(condition)
        }
        SET => {
            let value = evaluate(nodes, file, addresses, parameters, places, variables, other);
            let content = value.content;
            put_content(variables, first, content);
            value.walked
        }
        VERIFY => verify(nodes, constraints, addresses, variables),
        _ => true,
    }
}
