// "18. The ledger isn't well formed": the test of any ledger at all.
#![tactic(auto)]

ghost use Rattle.std.specs.Prelude.{◌≡◌, ◌/◌, ◌≤◌};
ghost use Rattle.kit.specs.Names.{length};
ghost use Rattle.definitions.specs.Ledger.{is_well_formed};
ghost use Rattle.ledger_contents.specs.Contents.{contents_of};
ghost use Rattle.ledger_struct.specs.Ledgers.{ledger_from};

use check_contract::check;
use check_refusals::is_refused;
use ledger_18_before::is_before_calls;
use ledger_18_call::is_after_call;
use ledger_18_places::places_fit;
use ledger_numbers::plain_numbers;
use ledger_struct::LastCall;

// Whether a ledger is well formed, whatever it holds.
pub fn is_well_formed(
    file: &[u8],
    last: LastCall,
    parameters: &[u32],
    variables: &[u32],
    places: &[u32],
) -> bool
    requires { (length parameters.now ≤ 40) × (length places.now / 5 ≤ 1024) }
    ensures { result ≡ is_well_formed (ledger_from file.now last parameters.now variables.now
        (contents_of places.now)) }
{
    if is_refused(check(file)) {
        return false;
    }
    let many = places.len() / 5;
    let mut plain = [0u32; 1024];
    plain_numbers(places, &mut plain[..]);
    if places_fit(file, &plain[..many], places) {
        if is_before_calls(last, parameters, variables) {
            return true;
        }
        is_after_call(file, last, parameters, variables, &plain[..many])
    } else {
        false
    }
}
