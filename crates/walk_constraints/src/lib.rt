// 01, Runs and views: "A constraint holds when its guard isn't set, or its variable is the root's value, as a cell of its owner code's
// address if a cell.": one constraint, under its guard.
#![tactic(auto)]

ghost use Rattle.std.specs.Prelude.{◌≡◌, ◌+◌, ◌≤◌};
ghost use Rattle.kit.specs.Names.{length};
ghost use Rattle.definitions.specs.Ledger.{is_set};
ghost use Rattle.ledger_contents.specs.Contents.{contents_of};
ghost use Rattle.write_trees.specs.Table.{table_of, Readable};
ghost use Rattle.ledger_circuits.specs.Circuits.{guard_from, constraint_from, holds_from};

use ledger_contents::plain_at;
use walk_claims::claim_holds;

fn is_set(variables: &[u32], guard: usize) -> bool
    ensures { result ≡ is_set (contents_of variables.now) (guard_from guard) }
{
    if guard == 0 {
        true
    } else {
        plain_at(variables, guard - 1) != 0
    }
}

// The constraint whose four numbers stand from a place on.
pub fn constraint_holds(
    nodes: &[u8],
    constraints: &[u16],
    addresses: &[u32],
    variables: &[u32],
    at: usize,
) -> bool
    requires { (at + 4 ≤ length constraints.now) × (Readable nodes.now) }
    ensures { result ≡ holds_from addresses.now variables.now
        (constraint_from (table_of nodes.now) constraints.now at) }
{
    let guard = constraints[at] as usize;
    let i = constraints[at + 1] as usize;
    let owner = constraints[at + 2] as usize;
    let root = constraints[at + 3] as usize;
    if is_set(variables, guard) {
        claim_holds(nodes, addresses, variables, i, owner, root)
    } else {
        true
    }
}
