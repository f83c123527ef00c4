// The judgement of an expression's node, which marks owners in a column, by recursion over its children.
#![tactic(auto)]

ghost use Rattle.std.specs.Prelude.{◌≡◌, ◌<◌, ◌≤◌};
ghost use Rattle.kit.specs.Names.{length};
ghost use Rattle.rules_scopes.specs.Slices.{scope_of, nodes_of, node_count_of, owner_count_of};
ghost use Rattle.rules_expressions.specs.Marking.{MarkedAs};

use file_kinds::*;
use rules_entries::entry_judged;
use rules_judgements::{Judged, constant_judged, field_judged, me_judged, parameter_judged};
use rules_marks::mark;
use rules_nodes::read_node;
use rules_operators::operator_judged;
use rules_owners::target_number;
use rules_reveals::{negation_judged, reveal_judged};
use rules_scopes::{FunctionSlices, field_from, parameter_from, target_fits};

// "Type and owner of a node by recursion over its children": with them its name, and its least fault.
pub fn judge(slices: &FunctionSlices, classes: &[u16], owners: &mut [u16], n: usize) -> Judged
    requires { (n < node_count_of slices.now) × (length classes.now ≡ owner_count_of slices.now)
        × (node_count_of slices.now ≤ length owners.old) }
    ensures { MarkedAs (scope_of slices.now) (nodes_of slices.now) classes.now n
        owners.old owners.new result }
{
    let node = read_node(slices.nodes, n);
    let kind = node.kind;
    let arg = node.arg;
    match kind {
        CONSTANT_SHORT => mark(owners, n, constant_judged(arg)),
        FIELD_SHORT => mark(
            owners,
            n,
            field_judged(classes, arg, field_from(slices.fields, arg)),
        ),
        ENTRY_SHORT => {
            let key = judge(slices, classes, owners, node.first);
            mark(
                owners,
                n,
                entry_judged(classes, field_from(slices.fields, arg), key),
            )
        }
        PARAMETER_SHORT => {
            let count = slices.parameters.len() / 2;
            let given = parameter_from(slices.parameters, arg);
            mark(owners, n, parameter_judged(classes, arg, count, given))
        }
        OPERATOR_SHORT => {
            let left = judge(slices, classes, owners, node.first);
            let right = judge(slices, classes, owners, node.second);
            mark(owners, n, operator_judged(classes, arg, left, right))
        }
        NOT_SHORT => {
            let part = judge(slices, classes, owners, node.first);
            mark(owners, n, negation_judged(classes, part))
        }
        REVEAL_SHORT => {
            let part = judge(slices, classes, owners, node.first);
            let target = target_number(arg);
            let fits = target_fits(slices.fields, slices.parameters, target);
            mark(owners, n, reveal_judged(classes, target, fits, part))
        }
        _ => mark(owners, n, me_judged()),
    }
}
