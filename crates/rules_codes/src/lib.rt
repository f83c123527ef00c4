// Rules on data types, operators and owners, over their numbers.
#![tactic(auto)]

ghost use Rattle.std.specs.Prelude.{◌≡◌};
ghost use Rattle.kit.specs.Names.{not, cond};
ghost use Rattle.definitions.specs.Owners.{is_reader};
ghost use Rattle.definitions.specs.ContractFile.{operator_of, operator_code, data_type_code, is_division, result_type};
ghost use Rattle.definitions.specs.Numbers.{fault, may_be_put};
ghost use Rattle.rules_faults.specs.Faults.{least_fault};
ghost use Rattle.rules_owners.specs.Numbering.{owner_with};
ghost use Rattle.rules_links.specs.Classes.{linked_by};
ghost use Rattle.rules_codes.specs.Codes.{HasClass, fit_codes, place_number, parts_number};

use file_kinds::*;
use rules_faults::number_if;
use rules_links::same_class;
use rules_owners::{CALLER, EVERYONE};
use rules_scopes::Declared;

// A value goes to its own place or one linked to it; a value that belongs to all goes everywhere.
fn may_be_put(classes: &[u16], value: u16, place: u16) -> bool
    requires { (HasClass classes.now value) × (HasClass classes.now place) }
    ensures { result ≡ may_be_put (linked_by classes.now) (owner_with value) (owner_with place) }
{
    if value == EVERYONE {
        return true;
    }
    if place == EVERYONE {
        return false;
    }
    same_class(classes, value, place)
}

// "11. .. has an owner neither all nor caller."
pub fn unread(classes: &[u16], owner: u16) -> u8
    requires { HasClass classes.now owner }
    ensures { result ≡ least_fault (fault (not (is_reader (linked_by classes.now) (owner_with owner))) 11) }
{
    number_if(!may_be_put(classes, owner, CALLER), 11)
}

// "15. An assigned value's owner is neither all nor linked to the place's owner"
pub fn misplaced(classes: &[u16], value: u16, place: u16) -> u8
    requires { (HasClass classes.now value) × (HasClass classes.now place) }
    ensures { result ≡ least_fault
        (fault (not (may_be_put (linked_by classes.now) (owner_with value) (owner_with place))) 15) }
{
    number_if(!may_be_put(classes, value, place), 15)
}

// An operator's number; a code above the table reads as 0.
fn operator_number(code: u16) -> u16
    ensures { result ≡ operator_code (operator_of code) }
{
    if code <= OR_SHORT { code } else { 0 }
}

// "Operators 0 to 6 take uints, 7 and 8 two equal types, 9 and 10 bools": whether an operator takes operands of these types.
pub fn operands_fit(code: u16, left: u16, right: u16) -> bool
    ensures { result ≡ fit_codes (operator_of code) left right }
{
    let operator = operator_number(code);
    if operator <= LESS_OR_EQUAL_SHORT {
        return (left == UINT_SHORT) & (right == UINT_SHORT);
    }
    if operator <= NOT_EQUAL_SHORT {
        return left == right;
    }
    (left == BOOL_SHORT) & (right == BOOL_SHORT)
}

// The type of an operator's result.
pub fn result_type(code: u16) -> u16
    ensures { result ≡ data_type_code (result_type (operator_of code)) }
{
    if operator_number(code) <= REMAINDER_SHORT {
        UINT_SHORT
    } else {
        BOOL_SHORT
    }
}

// Operators 3 and 4, which number 12 and rewriting set apart.
pub fn is_division(code: u16) -> bool
    ensures { result ≡ is_division (operator_of code) }
{
    let operator = operator_number(code);
    (operator == DIVIDED_SHORT) | (operator == REMAINDER_SHORT)
}

// The owner of a place, from its field and the name used as key.
pub fn place_owner(d: Declared, name: u16) -> u16
    ensures { result ≡ place_number d name }
{
    if d.tagged {
        return if name == 0 { CALLER } else { name };
    }
    d.owner
}

// "An operator or not belongs to all when its operands do, otherwise to the caller."
pub fn parts_owner(left: u16, right: u16) -> u16
    ensures { result ≡ parts_number left right }
{
    if (left == EVERYONE) & (right == EVERYONE) {
        EVERYONE
    } else {
        CALLER
    }
}

// A number if there is one to give, 0 for none.
pub fn given_if(given: bool, number: u16) -> u16
    ensures { result ≡ cond given number 0 }
{
    if given { number } else { 0 }
}
