// 01, Runs and views: a party's view of a ledger, whatever ledger it is.
#![tactic(auto)]

ghost use Rattle.std.specs.Prelude.{◌≤◌};
ghost use Rattle.kit.specs.Names.{length};
ghost use Rattle.ledger_contents.specs.Contents.{contents_of};
ghost use Rattle.ledger_struct.specs.Ledgers.{ledger_of, ledger_from};
ghost use Rattle.view_bytes.specs.Views.{Viewed};

use ledger_18_test::is_well_formed;
use ledger_struct::{LastCall, Ledger, at_most, flat_parameters, flat_places, flat_variables};
use memory_answer::Answer;
use view_bytes::{view_bytes, view_length};

// A party's view of a ledger in parts. What costs least is tested first: each gives the same refusal.
pub fn view_apart(
    file: &[u8],
    last: LastCall,
    parameters: &[u32],
    variables: &[u32],
    places: &[u32],
    party: u8,
    out: &mut [u8],
) -> Answer
    requires { (length parameters.now ≤ 40) × (length variables.now ≤ 5120) × (length places.now ≤ 5120)
        × (party ≤ 15) }
    ensures { Viewed party (ledger_from file.now last parameters.now variables.now
        (contents_of places.now)) out.old out.new result }
{
    let length = view_length(parameters, variables, places);
    let refused = Answer {
        number: 21,
        length: 0,
    };
    if out.len() < length {
        return refused;
    }
    if is_well_formed(file, last, parameters, variables, places) {
        view_bytes(last, parameters, variables, places, party, out);
        Answer { number: 0, length }
    } else {
        refused
    }
}

// A party's view of any ledger at all. Wrong programs that this rules out: an empty view; one that shows a cell's value to a party
// that does not own it; one that writes where it refuses.
pub fn view(l: Ledger, party: u8, out: &mut [u8]) -> Answer
    ensures { Viewed party (ledger_of l) out.old out.new result }
{
    if 15 < party {
        return Answer {
            number: 21,
            length: 0,
        };
    }
    let bytes = l.file;
    let length = at_most(l.file_length, 4596);
    let last = LastCall {
        call: l.call,
        function: l.function,
        caller: l.caller,
        outcome: l.outcome,
    };
    let mut parameters = [0u32; 40];
    let shown = flat_parameters(l, &mut parameters[..]);
    let mut variables = [0u32; 5120];
    let set = flat_variables(l, &mut variables[..]);
    let mut places = [0u32; 5120];
    let held = flat_places(l, &mut places[..]);
    view_apart(
        &bytes[..length],
        last,
        &parameters[..shown],
        &variables[..set],
        &places[..held],
        party,
        out,
    )
}
