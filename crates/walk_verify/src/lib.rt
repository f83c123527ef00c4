// 01, Runs and views: the constraints that a verify tests, all of them.
#![tactic(auto)]

ghost use Rattle.std.specs.Prelude.{◌≡◌, ◌+◌};
ghost use Rattle.write_trees.specs.Table.{table_of, Readable};
ghost use Rattle.ledger_circuits.specs.Circuits.{constraints_from, all_hold};

use walk_constraints::constraint_holds;

// All constraints of a function hold.
pub fn verify(nodes: &[u8], constraints: &[u16], addresses: &[u32], variables: &[u32]) -> bool
    requires { Readable nodes.now }
    ensures { result ≡ all_hold addresses.now variables.now
        (constraints_from (table_of nodes.now) constraints.now) }
{
    for i in 0..constraints.len() / 4 {
        if !constraint_holds(nodes, constraints, addresses, variables, 4 * i) {
            return false;
        }
    }
    true
}
