// Faults of what is put into a place and of a condition, from what is found of their expressions: numbers 8, 9, 14 and 15.
#![tactic(auto)]

ghost use Rattle.std.specs.Prelude.{◌≡◌};
ghost use Rattle.rules_links.specs.Classes.{linked_by};
ghost use Rattle.rules_codes.specs.Codes.{HasClass, place_number};
ghost use Rattle.rules_assignments.specs.Putting.{value_fault, field_fault, entry_put_fault, condition_fault};

use file_kinds::{BOOL_SHORT, PLAIN_SHORT};
use rules_codes::{misplaced, place_owner};
use rules_entries::entry_fault;
use rules_faults::number_if;
use rules_judgements::Judged;
use rules_owners::EVERYONE;
use rules_scopes::Declared;

// "9. A data type doesn't fit", and "15. An assigned value's owner is neither all nor linked to the place's owner"
fn value_fault(classes: &[u16], d: Declared, name: u16, value: Judged) -> u8
    requires { (HasClass classes.now (place_number d name)) × (HasClass classes.now value.owner) }
    ensures { result ≡ value_fault (linked_by classes.now) d name value }
{
    value
        .fault
        .min(number_if(value.kind != d.kind, 9))
        .min(misplaced(classes, value.owner, place_owner(d, name)))
}

// "8. .. (.. 18 takes 0 ..)"
pub fn field_fault(classes: &[u16], d: Declared, value: Judged) -> u8
    requires { (HasClass classes.now (place_number d 0)) × (HasClass classes.now value.owner) }
    ensures { result ≡ field_fault (linked_by classes.now) d value }
{
    number_if(d.shape != PLAIN_SHORT, 8).min(value_fault(classes, d, 0, value))
}

// The same for an entry, "19 takes 2".
pub fn entry_put_fault(classes: &[u16], d: Declared, key: Judged, value: Judged) -> u8
    requires { (HasClass classes.now (place_number d key.name)) × (HasClass classes.now value.owner) }
    ensures { result ≡ entry_put_fault (linked_by classes.now) d key value }
{
    key.fault
        .min(entry_fault(d, key))
        .min(value_fault(classes, d, key.name, value))
}

// "9. .. conditions are bools."; "14. The condition of a require or an if isn't public."
pub fn condition_fault(condition: Judged) -> u8
    ensures { result ≡ condition_fault condition }
{
    condition
        .fault
        .min(number_if(condition.kind != BOOL_SHORT, 9))
        .min(number_if(condition.owner != EVERYONE, 14))
}
