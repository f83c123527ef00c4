// 01, Runs and views: "Each reveal to all or to the party's address": whether a party is told what a reveal shows.
#![tactic(auto)]

ghost use Rattle.std.specs.Prelude.{◌≡◌};
ghost use Rattle.definitions.specs.ContractFile.{owner_of_code};
ghost use Rattle.definitions.specs.Original.{may_read, reader_of};
ghost use Rattle.ledger_circuits.specs.Circuits.{address_from};

use file_kinds::EVERYONE_CODE;
use walk_claims::address_of;

// A reveal to all tells every party, any other the party at its address alone.
pub fn may_read(addresses: &[u32], code: usize, party: u8) -> bool
    ensures { result ≡ may_read party (reader_of (address_from addresses.now) (owner_of_code code)) }
{
    if code == EVERYONE_CODE {
        true
    } else {
        address_of(addresses, code) == party as u32
    }
}
