// An entry of a mapping judged on its key's judgement: numbers 8, 9, 10 and 11.
#![tactic(auto)]

ghost use Rattle.std.specs.Prelude.{◌≡◌};
ghost use Rattle.rules_links.specs.Classes.{linked_by};
ghost use Rattle.rules_codes.specs.Codes.{HasClass, place_number};
ghost use Rattle.rules_judgements.specs.Judging.{entry_fault, entry_judged};

use file_kinds::{ADDRESS_SHORT, MAPPING_SHORT};
use rules_codes::{place_owner, unread};
use rules_faults::number_if;
use rules_judgements::Judged;
use rules_owners::EVERYONE;
use rules_scopes::Declared;

// "8. .. 4 and 19 take 2"; "9. .. keys are addresses"; "10. A key isn't public, or a tagged mapping's key isn't a name."
pub fn entry_fault(d: Declared, key: Judged) -> u8
    ensures { result ≡ entry_fault d key }
{
    let shape = number_if(d.shape != MAPPING_SHORT, 8);
    let kind = number_if(key.kind != ADDRESS_SHORT, 9);
    let unnamed = d.tagged & (key.name == 0);
    shape
        .min(kind)
        .min(number_if((key.owner != EVERYONE) | unnamed, 10))
}

// An entry as an expression: its owner is its field's, or the name used as key.
pub fn entry_judged(classes: &[u16], d: Declared, key: Judged) -> Judged
    requires { HasClass classes.now (place_number d key.name) }
    ensures { result ≡ entry_judged (linked_by classes.now) d key }
{
    let owner = place_owner(d, key.name);
    let fault = key
        .fault
        .min(entry_fault(d, key))
        .min(unread(classes, owner));
    Judged {
        kind: d.kind,
        owner,
        name: 0,
        fault,
    }
}
