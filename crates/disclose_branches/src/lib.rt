// 01, Runs and views: "of an if the condition and the taken branch; a false require fails the call": what a condition's value decides.
#![tactic(auto)]

ghost use Rattle.std.specs.Prelude.{◌≡◌, ◌&&◌};
ghost use Rattle.kit.specs.Names.{cond};
ghost use Rattle.definitions.specs.Basics.{is_true};

// The branch of an if that is taken.
pub fn branch_of(condition: u32, then: usize, other: usize) -> usize
    ensures { result ≡ cond (is_true condition) then other }
{
    if condition == 0 { other } else { then }
}

// A false require fails, and so does one that is not worked out.
pub fn holds(finished: bool, condition: u32) -> bool
    ensures { result ≡ (finished && is_true condition) }
{
    if finished { condition != 0 } else { false }
}
