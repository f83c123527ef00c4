// The column of owners: the number of each judged expression's owner, at its node's number.
#![tactic(auto)]

ghost use Rattle.std.specs.Prelude.{◌≡◌, ◌<◌};
ghost use Rattle.kit.specs.Names.{length, set};

use rules_judgements::Judged;

// A judgement is handed on when its owner stands in the column.
pub fn mark(owners: &mut [u16], n: usize, judged: Judged) -> Judged
    requires { n < length owners.old }
    ensures { (result ≡ judged) × (owners.new ≡ set owners.old n judged.owner) }
{
    owners[n] = judged.owner;
    judged
}
