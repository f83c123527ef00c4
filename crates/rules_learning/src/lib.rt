// The links that a condition gives, by recursion over its "and" tree; apart from the judgement of expressions, which needs none of it.
#![tactic(auto)]

ghost use Rattle.std.specs.Prelude.{◌≡◌, ◌<◌};
ghost use Rattle.kit.specs.Names.{length};
ghost use Rattle.definitions.specs.Owners.{name_of, links_of_condition};
ghost use Rattle.theory_trees.specs.Trees.{expression_in};
ghost use Rattle.rules_owners.specs.Numbering.{name_with};
ghost use Rattle.rules_links.specs.Classes.{Classed, linked_by, Learnt};
ghost use Rattle.rules_scopes.specs.Slices.{scope_of, nodes_of, node_count_of, owner_count_of};

use file_kinds::*;
use rules_judgements::{argument_name, final_name};
use rules_links::link;
use rules_nodes::read_node;
use rules_owners::CALLER;
use rules_scopes::{FunctionSlices, field_from, parameter_from};

// "A name is me, a final, or a public address parameter."
fn name_of(slices: &FunctionSlices, n: usize) -> u16
    requires { n < node_count_of slices.now }
    ensures n_value { name_of (scope_of slices.now) (expression_in (nodes_of slices.now) n)
        ≡ name_with result }
    ensures upper_bound { result < owner_count_of slices.now }
{
    let node = read_node(slices.nodes, n);
    let kind = node.kind;
    let arg = node.arg;
    match kind {
        FIELD_SHORT => final_name(arg, field_from(slices.fields, arg)),
        PARAMETER_SHORT => argument_name(arg, parameter_from(slices.parameters, arg)),
        CONSTANT_SHORT | OPERATOR_SHORT | REVEAL_SHORT => 0,
        ENTRY_SHORT | NOT_SHORT => 0,
        _ => CALLER,
    }
}

// "A completed require of name == name, or of an "and" tree holding such, links the two names". The answer is whether any were.
pub fn learn(slices: &FunctionSlices, classes: &mut [u16], n: usize) -> bool
    requires { (n < node_count_of slices.now) × (length classes.old ≡ owner_count_of slices.now)
        × (Classed classes.old) }
    ensures { Learnt classes.old classes.new result
        (links_of_condition (scope_of slices.now)
        (expression_in (nodes_of slices.now) n) (linked_by classes.old)) }
{
    let node = read_node(slices.nodes, n);
    let kind = node.kind;
    if kind != OPERATOR_SHORT {
        return false;
    }
    let operator = node.arg;
    match operator {
        EQUAL_SHORT => {
            let left = name_of(slices, node.first);
            let right = name_of(slices, node.second);
            link(classes, left, right)
        }
        AND_SHORT => {
            let one = learn(slices, classes, node.first);
            let other = learn(slices, classes, node.second);
            one | other
        }
        _ => false,
    }
}
