// What is found of an expression: its data type, owner, name and least fault; of constants and places.
#![tactic(auto)]

ghost use Rattle.std.specs.Prelude.{◌≡◌, ◌+◌, ◌<◌, ◌≤◌};
ghost use Rattle.kit.specs.Names.{length};
ghost use Rattle.rules_links.specs.Classes.{linked_by};
ghost use Rattle.rules_codes.specs.Codes.{HasClass, place_number};
ghost use Rattle.rules_judgements.specs.Judging.{constant_judged, me_judged, final_name_number, field_judged, argument_name};
ghost use Rattle.rules_judgements.specs.Judging.{parameter_judged};

use file_kinds::*;
use rules_codes::{given_if, place_owner, unread};
use rules_faults::number_if;
use rules_owners::{CALLER, EVERYONE, FINALS, PARAMETERS};
use rules_scopes::{Declared, Given};

// Owner and name by number, 0 for all and for no name; least fault, 16 for none.
#[derive(Clone, Copy)]
pub struct Judged {
    pub kind: u16,
    pub owner: u16,
    pub name: u16,
    pub fault: u8,
}

// A constant has the type that its arg says, belongs to all and has no fault.
pub fn constant_judged(code: u16) -> Judged
    ensures { result ≡ constant_judged code }
{
    Judged {
        kind: code,
        owner: EVERYONE,
        name: 0,
        fault: 16,
    }
}

// me is an address, belongs to all and is a name.
pub fn me_judged() -> Judged
    ensures { result ≡ me_judged }
{
    Judged {
        kind: ADDRESS_SHORT,
        owner: EVERYONE,
        name: CALLER,
        fault: 16,
    }
}

// "A name is me, a final, .."
pub fn final_name(f: u16, d: Declared) -> u16
    requires { 10 + f ≤ 65535 }
    ensures { result ≡ final_name_number f d }
{
    if d.shape == FINAL_SHORT {
        FINALS + f
    } else {
        0
    }
}

// "8. The field's shape doesn't suit the node (3 takes 0 or 1 ..)"
pub fn field_judged(classes: &[u16], f: u16, d: Declared) -> Judged
    requires { (10 + f ≤ 65535) × (HasClass classes.now (place_number d 0)) }
    ensures { result ≡ field_judged (linked_by classes.now) f d }
{
    let owner = place_owner(d, 0);
    Judged {
        kind: d.kind,
        owner,
        name: final_name(f, d),
        fault: number_if(d.shape == MAPPING_SHORT, 8).min(unread(classes, owner)),
    }
}

// ".. or a public address parameter."
pub fn argument_name(k: u16, p: Given) -> u16
    requires { p.owner ≡ 0 → k < 8 }
    ensures { result ≡ argument_name k p }
{
    if p.owner == EVERYONE_CODE_SHORT {
        given_if(p.kind == ADDRESS_SHORT, PARAMETERS + k)
    } else {
        0
    }
}

// "8. .. a parameter is missing"
pub fn parameter_judged(classes: &[u16], k: u16, count: usize, p: Given) -> Judged
    requires { (p.owner ≡ 0 → k < 8) × (10 ≤ length classes.now) }
    ensures { result ≡ parameter_judged (linked_by classes.now) k count p }
{
    let owner = given_if(!(p.owner == EVERYONE_CODE_SHORT), CALLER);
    Judged {
        kind: p.kind,
        owner,
        name: argument_name(k, p),
        fault: number_if(count <= (k as usize), 8).min(unread(classes, owner)),
    }
}
