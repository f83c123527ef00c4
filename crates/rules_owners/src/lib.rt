// Owners by number, whatever codes a file has for them: 0 all, 1 the caller, 2 + k parameter k, 10 + f final f. The numbers of a contract's
// owners lie close together, so that a table has one place for each.
#![tactic(auto)]

ghost use Rattle.std.specs.Prelude.{◌≡◌};
ghost use Rattle.kit.specs.Names.{true};
ghost use Rattle.definitions.specs.ContractFile.{owner_of_code};
ghost use Rattle.definitions.specs.Numbers.{target_in_tables};
ghost use Rattle.rules_owners.specs.Numbering.{number_of_owner, is_field_code, declared_number};

use file_kinds::*;

pub const EVERYONE: u16 = 0;

pub const CALLER: u16 = 1;

pub const PARAMETERS: u16 = 2;

pub const FINALS: u16 = 10;

// How far the codes of finals, and those of parameters, lie above their numbers.
const FINAL_CODES_ABOVE: u16 = FINAL_CODES_SHORT - FINALS;

const PARAMETER_CODES_ABOVE: u16 = PARAMETER_CODES_SHORT - PARAMETERS;

// The owner that a reveal's code names.
pub fn target_number(code: u16) -> u16
    requires { target_in_tables code ≡ true }
    ensures { result ≡ number_of_owner (owner_of_code code) }
{
    if code < 2 {
        return code;
    }
    if code < FINAL_CODES_END_SHORT {
        return code - FINAL_CODES_ABOVE;
    }
    code - PARAMETER_CODES_ABOVE
}

// The final that a field's owner code names; all and a tag name none.
pub fn declared_number(code: u16) -> u16
    requires { is_field_code code ≡ true }
    ensures { result ≡ declared_number code }
{
    if code < FINAL_CODES_SHORT {
        0
    } else {
        code - FINAL_CODES_ABOVE
    }
}
