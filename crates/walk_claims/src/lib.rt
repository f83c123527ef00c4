// 01, Runs and views: what a constraint says of its variable.
#![tactic(auto)]

ghost use Rattle.std.specs.Prelude.{◌≡◌};
ghost use Rattle.definitions.specs.ContractFile.{owner_of_code};
ghost use Rattle.definitions.specs.Original.{only, reader_of};
ghost use Rattle.definitions.specs.Ledger.{content_at, is_content_of, claim_holds};
ghost use Rattle.ledger_contents.specs.Contents.{contents_of};
ghost use Rattle.write_trees.specs.Trees.{circuit_in};
ghost use Rattle.write_trees.specs.Table.{table_of, Readable};
ghost use Rattle.ledger_circuits.specs.Circuits.{address_from, value_from, claim_from};

use file_kinds::*;
use ledger_circuits::circuit_value;
use ledger_contents::content_at;
use ledger_places::number_at;
use walk_contents::{is_cell_of, is_plain, opens_for};

// The address of an owner code's name; code 0 names nobody.
pub fn address_of(addresses: &[u32], code: usize) -> u32
    ensures { (code ≡ 0 → ⊥) → reader_of (address_from addresses.now) (owner_of_code code) ≡ only result }
{
    if code == CALLER_CODE {
        number_at(addresses, CALLER_CODE)
    } else if code < FINAL_CODES {
        number_at(addresses, PARAMETER_CODES)
    } else if code < FINAL_CODES_END {
        number_at(addresses, code)
    } else if code < PARAMETER_CODES {
        number_at(addresses, PARAMETER_CODES)
    } else {
        number_at(addresses, code)
    }
}

// The value of a root's circuit; a node that is not there is of no kind and stands for the caller.
pub fn root_value(nodes: &[u8], addresses: &[u32], variables: &[u32], root: usize) -> u32
    requires { Readable nodes.now }
    ensures { result ≡ value_from addresses.now variables.now (circuit_in (table_of nodes.now) root) }
{
    if root < nodes.len() / 8 {
        circuit_value(nodes, addresses, variables, root)
    } else {
        number_at(addresses, 1)
    }
}

// "its variable is the root's value": plain for all, or a cell of its owner.
pub fn equals_value(
    nodes: &[u8],
    addresses: &[u32],
    variables: &[u32],
    i: usize,
    owner: usize,
    root: usize,
) -> bool
    requires { Readable nodes.now }
    ensures { result ≡ is_content_of (reader_of (address_from addresses.now) (owner_of_code owner))
        (value_from addresses.now variables.now (circuit_in (table_of nodes.now) root))
        (content_at (contents_of variables.now) i) }
{
    let value = root_value(nodes, addresses, variables, root);
    let content = content_at(variables, i);
    if owner == EVERYONE_CODE {
        is_plain(content, value)
    } else {
        is_cell_of(content, address_of(addresses, owner), value)
    }
}

// What a constraint claims: its root's value, or, where the root is 65,535, that the variable opens for the caller.
pub fn claim_holds(
    nodes: &[u8],
    addresses: &[u32],
    variables: &[u32],
    i: usize,
    owner: usize,
    root: usize,
) -> bool
    requires { Readable nodes.now }
    ensures { result ≡ claim_holds (address_from addresses.now) (contents_of variables.now)
        (claim_from (table_of nodes.now) i owner root) }
{
    if root == OPENS {
        let content = content_at(variables, i);
        opens_for(content, number_at(addresses, CALLER_CODE))
    } else {
        equals_value(nodes, addresses, variables, i, owner, root)
    }
}
