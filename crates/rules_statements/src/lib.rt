// The faults of a statement's node, the links after it, and the owners of its expressions, by recursion over its parts.
#![tactic(auto)]

ghost use Rattle.std.specs.Prelude.{◌≡◌, ◌*◌, ◌/◌, ◌<◌, ◌≤◌};
ghost use Rattle.kit.specs.Names.{length};
ghost use Rattle.definitions.specs.ContractFile.{node};
ghost use Rattle.file_decoded.specs.Slices.{node_from};
ghost use Rattle.rules_links.specs.Classes.{Classed};
ghost use Rattle.rules_scopes.specs.Slices.{scope_of, nodes_of, node_count_of, owner_count_of};
ghost use Rattle.rules_statements.specs.Checking.{JudgedCondition, JudgedStatement};

use file_kinds::*;
use rules_assignments::{condition_fault, entry_put_fault, field_fault};
use rules_branches::{Checked, branched, in_turn, kept, outcome};
use rules_expressions::judge;
use rules_learning::learn;
use rules_nodes::{NodeNumbers, read_node};
use rules_scopes::{FunctionSlices, field_from};

// The condition of node `first`: its fault, and whether the names that it links were not linked before.
fn condition_met(
    slices: &FunctionSlices,
    classes: &mut [u16],
    owners: &mut [u16],
    first: usize,
) -> Checked
    requires { (first < node_count_of slices.now) × (length classes.old ≡ owner_count_of slices.now)
        × (Classed classes.old) × (node_count_of slices.now ≤ length owners.old) }
    ensures { JudgedCondition (scope_of slices.now) (nodes_of slices.now) first
        classes.old classes.new owners.old owners.new result }
{
    let fault = condition_fault(judge(slices, classes, owners, first));
    outcome(fault, learn(slices, classes, first))
}

// Statement n, whose numbers are read, if it has no statements in it: an assignment, a require or a skip.
fn judge_simple(
    slices: &FunctionSlices,
    classes: &mut [u16],
    owners: &mut [u16],
    n: usize,
    read: NodeNumbers,
) -> Checked
    requires { (n < node_count_of slices.now) × (length classes.old ≡ owner_count_of slices.now)
        × (Classed classes.old) × (node_count_of slices.now ≤ length owners.old)
        × (node read.kind read.arg read.first read.second read.third ≡ node_from slices.now.nodes.now (5 * n))
        × (read.kind ≡ 17 → ⊥) × (read.kind ≡ 21 → ⊥) }
    ensures { JudgedStatement (scope_of slices.now) (nodes_of slices.now) n
        classes.old classes.new owners.old owners.new result }
{
    let kind = read.kind;
    let arg = read.arg;
    match kind {
        FIELD_TAKES_SHORT => {
            let value = judge(slices, classes, owners, read.first);
            outcome(
                field_fault(classes, field_from(slices.fields, arg), value),
                false,
            )
        }
        ENTRY_TAKES_SHORT => {
            let key = judge(slices, classes, owners, read.first);
            let value = judge(slices, classes, owners, read.second);
            outcome(
                entry_put_fault(classes, field_from(slices.fields, arg), key, value),
                false,
            )
        }
        REQUIRE_SHORT => condition_met(slices, classes, owners, read.first),
        _ => outcome(16, false),
    }
}

// The least fault of statement n; the classes stand for the links behind it afterwards. An if keeps the links before it, for the
// else-branch and for what is behind it.
pub fn judge_statement(
    slices: &FunctionSlices,
    classes: &mut [u16],
    owners: &mut [u16],
    n: usize,
) -> Checked
    requires { (n < node_count_of slices.now) × (length classes.old ≡ owner_count_of slices.now)
        × (Classed classes.old) × (node_count_of slices.now ≤ length owners.old) }
    ensures { JudgedStatement (scope_of slices.now) (nodes_of slices.now) n
        classes.old classes.new owners.old owners.new result }
{
    let node = read_node(slices.nodes, n);
    let kind = node.kind;
    match kind {
        SEQUENCE_SHORT => {
            let one = judge_statement(slices, classes, owners, node.first);
            let two = judge_statement(slices, classes, owners, node.second);
            in_turn(one, two)
        }
        IF_SHORT => {
            let all = classes.len();
            let before = kept(classes);
            let mut other = before;
            let met = condition_met(slices, classes, owners, node.first);
            let yes = judge_statement(slices, classes, owners, node.second);
            let passed = &mut other[..all];
            let no = judge_statement(slices, passed, owners, node.third);
            branched(classes, &before, &other, met, yes, no)
        }
        _ => judge_simple(slices, classes, owners, n, node),
    }
}
