// 01, Numbers: "0 means accepted": what every entry asks of a number before it goes on.
#![tactic(auto)]

ghost use Rattle.std.specs.Prelude.{◌≡◌};
ghost use Rattle.kit.specs.Names.{not};
ghost use Rattle.definitions.specs.Basics.{is_zero};

// Whether a number refuses. Wrong programs that this rules out: one that makes a call, or writes, reports or passes a file, that a number
// refuses.
pub fn is_refused(number: u8) -> bool
    ensures { result ≡ not (is_zero number) }
{
    number != 0
}
