// A negation and a reveal judged on their part's judgement: numbers 9, 11 and 13.
#![tactic(auto)]

ghost use Rattle.std.specs.Prelude.{◌≡◌};
ghost use Rattle.rules_links.specs.Classes.{linked_by};
ghost use Rattle.rules_codes.specs.Codes.{HasClass};
ghost use Rattle.rules_operators.specs.Operating.{negation_judged, reveal_judged};

use file_kinds::BOOL_SHORT;
use rules_codes::{parts_owner, unread};
use rules_faults::number_if;
use rules_judgements::Judged;
use rules_owners::EVERYONE;

// A not on its judged part.
pub fn negation_judged(classes: &[u16], part: Judged) -> Judged
    requires { HasClass classes.now part.owner }
    ensures { result ≡ negation_judged (linked_by classes.now) part }
{
    let fault = part
        .fault
        .min(number_if(part.kind != BOOL_SHORT, 9))
        .min(unread(classes, part.owner));
    Judged {
        kind: BOOL_SHORT,
        owner: parts_owner(part.owner, 0),
        name: 0,
        fault,
    }
}

// "13. A reveal's operand belongs to all."
pub fn reveal_judged(classes: &[u16], target: u16, fits: bool, part: Judged) -> Judged
    requires { HasClass classes.now part.owner }
    ensures { result ≡ reveal_judged (linked_by classes.now) target fits part }
{
    let read = part
        .fault
        .min(number_if(!fits, 8))
        .min(unread(classes, part.owner));
    Judged {
        kind: part.kind,
        owner: target,
        name: 0,
        fault: read.min(number_if(part.owner == EVERYONE, 13)),
    }
}
