// What is found of an operator, from what is found of its operands: numbers 9, 11 and 12.
#![tactic(auto)]

ghost use Rattle.std.specs.Prelude.{◌≡◌};
ghost use Rattle.rules_links.specs.Classes.{linked_by};
ghost use Rattle.rules_codes.specs.Codes.{HasClass};
ghost use Rattle.rules_operators.specs.Operating.{operator_judged};

use rules_codes::{is_division, operands_fit, parts_owner, result_type, unread};
use rules_faults::number_if;
use rules_judgements::Judged;
use rules_owners::EVERYONE;

// An operator on two judged operands: "9. A data type doesn't fit"; "12. Operator 3 or 4 has a private operand."
pub fn operator_judged(classes: &[u16], code: u16, left: Judged, right: Judged) -> Judged
    requires { (HasClass classes.now left.owner) × (HasClass classes.now right.owner) }
    ensures { result ≡ operator_judged (linked_by classes.now) code left right }
{
    let kind = number_if(!operands_fit(code, left.kind, right.kind), 9);
    let private = (left.owner != EVERYONE) | (right.owner != EVERYONE);
    let divisor = number_if(is_division(code) & private, 12);
    let read = left
        .fault
        .min(right.fault)
        .min(kind)
        .min(unread(classes, left.owner))
        .min(unread(classes, right.owner));
    Judged {
        kind: result_type(code),
        owner: parts_owner(left.owner, right.owner),
        name: 0,
        fault: read.min(divisor),
    }
}
