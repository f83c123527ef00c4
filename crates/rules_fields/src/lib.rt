// Number 8 of a contract's fields, in their declared owners; apart from its functions, whose judging needs none of it.
#![tactic(auto)]

ghost use Rattle.std.specs.Prelude.{◌≡◌, ◌/◌, ◌<◌};
ghost use Rattle.kit.specs.Names.{length};
ghost use Rattle.rules_scopes.specs.Scopes.{FieldsReady};
ghost use Rattle.rules_fields.specs.Fields.{owner_fault, all_fields_fault};

use file_kinds::FINAL_SHORT;
use rules_faults::number_if;
use rules_owners::{EVERYONE, FINALS};
use rules_scopes::field_from;

// "8. .. an owner code's field isn't final": in field f's own owner code.
fn owner_fault(fields: &[u16], f: u16) -> u8
    requires { (FieldsReady fields.now) × (f < length fields.now / 3) }
    ensures { result ≡ owner_fault fields.now f }
{
    let declared = field_from(fields, f);
    if declared.tagged {
        return 16;
    }
    if declared.owner == EVERYONE {
        return 16;
    }
    let named = field_from(fields, declared.owner - FINALS);
    number_if(named.shape != FINAL_SHORT, 8)
}

// The least fault of all fields.
pub fn fields_fault(fields: &[u16]) -> u8
    requires { FieldsReady fields.now }
    ensures { result ≡ all_fields_fault fields.now }
{
    let mut fault: u8 = 16;
    for f in 0..fields.len() / 3 {
        fault = fault.min(owner_fault(fields, f as u16));
    }
    fault
}
