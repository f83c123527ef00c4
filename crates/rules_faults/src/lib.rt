// The least of the numbers 8 to 15 that a tree is refused by, 16 standing for none: "The first sentence that holds gives the number", so
// that of two faults the lower counts, which is their minimum.
#![tactic(auto)]

ghost use Rattle.std.specs.Prelude.{◌≡◌};
ghost use Rattle.kit.specs.Names.{cond};

// A sentence's number if it holds.
pub fn number_if(holds: bool, number: u8) -> u8
    ensures { result ≡ cond holds number 16 }
{
    if holds { number } else { 16 }
}
