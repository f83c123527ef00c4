// 01, Runs and views: "A call walks the function's written body on the ledger's plain values and cells", on flat contents that are lent.
// A sequence's second part and an if's taken branch go on in the loop: only a sequence's first part deepens the stack.
#![tactic(auto)]

ghost use Rattle.std.specs.Prelude.{◌≡◌, ◌*◌, ◌<◌, ◌≤◌};
ghost use Rattle.kit.specs.Names.{true, false, cond};
ghost use Rattle.definitions.specs.Basics.{is_true};
ghost use Rattle.definitions.specs.ContractFile.{field_count};
ghost use Rattle.definitions.specs.Ledger.{plain_number};
ghost use Rattle.ledger_contents.specs.Contents.{content_of_code};
ghost use Rattle.write_trees.specs.Trees.{record_at, command_in};
ghost use Rattle.write_trees.specs.Table.{count_of, table_of, Readable};
ghost use Rattle.ledger_circuits.specs.Circuits.{constraints_from};
ghost use Rattle.walk_expressions.specs.Evaluation.{state_of};
ghost use Rattle.walk_steps.specs.Walk.{after_from, completes_from, Ran, hands_on};

use file_bytes::read_node;
use file_kinds::{IF, SEQUENCE};
use walk_expressions::evaluate;
use walk_numbers::{Walked, number_of};
use walk_steps::step;

fn branch_of(condition: Walked, second: usize, third: usize) -> usize
    ensures { result ≡ cond (is_true (plain_number (content_of_code condition.content))) second third }
{
    if number_of(condition) == 0 {
        third
    } else {
        second
    }
}

fn hands_on(nodes: &[u8], n: usize) -> bool
    requires { (n < count_of nodes.now) × (Readable nodes.now) }
    ensures { result ≡ hands_on (record_at (table_of nodes.now) n).kind }
{
    let node = read_node(nodes, 8 * n);
    let kind = node.kind;
    match kind {
        SEQUENCE => true,
        IF => true,
        _ => false,
    }
}

// The command whose root is node n. Where the answer is false the contents are to be given up.
pub fn run(
    nodes: &[u8],
    file: &[u8],
    addresses: &[u32],
    constraints: &[u16],
    parameters: &[u32],
    places: &mut [u32],
    variables: &mut [u32],
    n: usize,
) -> bool
    requires { (n < count_of nodes.now) × ((Readable nodes.now) × (field_count file.now ≤ 64)) }
    ensures { Ran (completes_from file.now addresses.now parameters.now
        (constraints_from (table_of nodes.now) constraints.now)
        (state_of places.old variables.old) (command_in (table_of nodes.now) n))
        (after_from file.now addresses.now parameters.now
        (state_of places.old variables.old) (command_in (table_of nodes.now) n))
        (state_of places.new variables.new) result }
{
    let mut at = n;
    // Kept: a walk down a tree to the node that is a step of its own; no range or slice tells its turns beforehand.
    while hands_on(nodes, at) {
        let node = read_node(nodes, 8 * at);
        let first = node.first;
        if node.kind == SEQUENCE {
            if !run(
                nodes,
                file,
                addresses,
                constraints,
                parameters,
                places,
                variables,
                first,
            ) {
                return false;
            }
            at = node.second;
        } else {
            let condition = evaluate(nodes, file, addresses, parameters, places, variables, first);
            if !condition.walked {
                return false;
            }
            at = branch_of(condition, node.second, node.third);
        }
    }
    step(
        nodes,
        file,
        addresses,
        constraints,
        parameters,
        places,
        variables,
        at,
    )
}
