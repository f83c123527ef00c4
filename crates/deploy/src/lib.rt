// Deployment: document 01's numbers 1 to 15 and 17, and the first ledger of an accepted contract.
#![tactic(auto)]

ghost use Rattle.std.specs.Prelude.{◌≡◌, ◌<◌};
ghost use Rattle.definitions.specs.Numbers.{or_else};
ghost use Rattle.definitions.specs.Ledger.{deploy_number};
ghost use Rattle.deploy.specs.Deployments.{Deployed, Refused};

use deploy_17_addresses::addresses_number;
use ledger_contents::{Content, Place};
use ledger_struct::Ledger;

// The number of a deployment, and its ledger: for a number above 0 the ledger of nothing.
#[derive(Drop)]
pub struct Deployment {
    pub number: u8,
    pub ledger: Ledger,
}

// The first of two numbers that refuses.
fn first_number(first: u8, second: u8) -> u8
    ensures { result ≡ or_else first second }
{
    if first == 0 { second } else { first }
}

// The number of a deployment: the file's own before that of the addresses.
fn deploy_number(file: &[u8], addresses: &[u8]) -> u8
    ensures { result ≡ deploy_number file.now addresses.now }
{
    let own = check_contract::check(file);
    let given = addresses_number(file, addresses);
    first_number(own, given)
}

fn refused(number: u8) -> Deployment
    ensures { Refused number result }
{
    let zero = Place {
        content: Content::Plain(0),
    };
    let file = [0u8; 4596];
    let parameters = [zero; 8];
    let variables = [zero; 1024];
    let places = [zero; 1024];
    let ledger = Ledger {
        file,
        file_length: 0,
        call: 0,
        function: 0,
        caller: 0,
        outcome: 0,
        parameters,
        parameter_count: 0,
        variables,
        variable_count: 0,
        places,
        place_count: 0,
    };
    Deployment { number, ledger }
}

// A contract brought into force with the addresses of its finals.
pub fn deploy(file: &[u8], addresses: &[u8]) -> Deployment
    ensures { Deployed file.now addresses.now result }
{
    let number = deploy_number(file, addresses);
    if 0 < number {
        return refused(number);
    }
    let ledger = deploy_ledger::deployed(file, addresses);
    Deployment { number, ledger }
}
