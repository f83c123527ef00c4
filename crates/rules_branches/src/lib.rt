// What is found of a sequence and of an if, from what was found of their parts: the least fault, and whether a link was added. They
// stand apart from the recursion over statements, so that each is proved by itself.
#![tactic(auto)]

ghost use Rattle.std.specs.Prelude.{◌≡◌, ◌||◌, ◌≤◌};
ghost use Rattle.kit.specs.Names.{min, length, take};
ghost use Rattle.rules_links.specs.Classes.{Classed};
ghost use Rattle.rules_meet.specs.Branches.{Behind};

use rules_links::class_room;
use rules_meet::behind;

// Least fault, 16 for none, and whether a link was added.
#[derive(Clone, Copy)]
pub struct Checked {
    pub fault: u8,
    pub added: bool,
}

pub fn outcome(fault: u8, added: bool) -> Checked
    ensures { result ≡ record { fault = fault; added = added } }
{
    Checked { fault, added }
}

// One statement, and another behind it.
pub fn in_turn(one: Checked, two: Checked) -> Checked
    ensures { (result.fault ≡ min one.fault two.fault) × (result.added ≡ (one.added || two.added)) }
{
    Checked {
        fault: one.fault.min(two.fault),
        added: one.added | two.added,
    }
}

// The classes before an if, for the else-branch and for what is behind it.
pub fn kept(classes: &[u16]) -> [u16; 74]
    requires { length classes.now ≤ 74 }
    ensures { (74 ≡ length result) × (take (length classes.now) result ≡ classes.now) }
{
    let all = classes.len();
    let mut room = class_room();
    room[..all].copy_from_slice(classes);
    room
}

// An if, by its condition and its two branches: the classes are those at the end of the one branch, and afterwards those behind the if.
pub fn branched(
    classes: &mut [u16],
    before: &[u16],
    other: &[u16],
    condition: Checked,
    yes: Checked,
    no: Checked,
) -> Checked
    requires { (Classed classes.old) × (Classed (take (length classes.old) before.now))
        × (Classed (take (length classes.old) other.now))
        × (length classes.old ≤ length before.now) × (length classes.old ≤ length other.now) }
    ensures fault_value { result.fault ≡ min (min condition.fault yes.fault) no.fault }
    ensures behind { Behind (take (length classes.old) before.now) classes.old
        (condition.added || yes.added) (take (length classes.old) other.now) no.added
        classes.new result.added }
    ensures classes_len_unchanged { length classes.new ≡ length classes.old }
{
    let all = classes.len();
    let grown = condition.added | yes.added;
    let added = behind(classes, &before[..all], &other[..all], grown, no.added);
    Checked {
        fault: condition.fault.min(yes.fault).min(no.fault),
        added,
    }
}
