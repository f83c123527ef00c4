// 01, Runs and views: number 21 of a request for a call's disclosures, "its party is above 15, or its output is too short", behind the
// call's own number; the disclosed values handed over where they fit.
#![tactic(auto)]

ghost use Rattle.std.specs.Prelude.{◌≡◌, ◌∷◌, ◌≤◌};
ghost use Rattle.kit.specs.Names.{[], ltb, length};
ghost use Rattle.definitions.specs.Basics.{first_that_holds};
ghost use Rattle.definitions.specs.Numbers.{or_else};
ghost use Rattle.disclose_output.specs.Handing.{HandedOver};

use memory_answer::Answer;

// What refuses before anything is worked out: the call's own number, then that of a party that is none.
#[tactic(auto, using(crate::proofs::Refusals::number_first), unfolding(definitions::specs::Basics::first_that_holds))]
pub fn refusal(number: u8, party: u8) -> u8
    ensures { result ≡ or_else number (first_that_holds 21 (ltb 15 party ∷ [])) }
{
    if number != 0 {
        return number;
    }
    if 15 < party {
        return 21;
    }
    0
}

// "its output is too short": nothing is written then.
pub fn hand_over(values: &[u32], out: &mut [u32]) -> Answer
    ensures { HandedOver values.now out.old out.new result }
{
    if out.len() < values.len() {
        return Answer {
            number: 21,
            length: 0,
        };
    }
    out[..values.len()].copy_from_slice(values);
    Answer {
        number: 0,
        length: values.len(),
    }
}
