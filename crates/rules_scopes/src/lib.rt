// The fields and parameters that a function's nodes name, as the decoded slices hold them.
#![tactic(auto)]

ghost use Rattle.std.specs.Prelude.{◌≡◌, ◌+◌, ◌/◌, ◌<◌};
ghost use Rattle.kit.specs.Names.{length};
ghost use Rattle.definitions.specs.Numbers.{owner_fits};
ghost use Rattle.rules_owners.specs.Numbering.{owner_with};
ghost use Rattle.rules_scopes.specs.Scopes.{field_on, parameter_on, scope_from, IsField, IsParameter, FieldsReady, ParametersReady};
ghost use Rattle.rules_scopes.specs.Scopes.{Ready};

use file_kinds::*;
use rules_owners::{FINALS, PARAMETERS, declared_number};

// A field's shape, data type and owner: the number of the final that owns it, 0 for all; or the tag, "the mapping's key".
#[derive(Clone, Copy)]
pub struct Declared {
    pub shape: u16,
    pub kind: u16,
    pub owner: u16,
    pub tagged: bool,
}

// A parameter's data type and owner, 0 all or 1 the caller.
#[derive(Clone, Copy)]
pub struct Given {
    pub kind: u16,
    pub owner: u16,
}

// Where a function's nodes are judged: the contract's fields, the function's own parameters and the contract's nodes.
#[derive(Clone, Copy)]
pub struct FunctionSlices<'a> {
    pub fields: &'a [u16],
    pub parameters: &'a [u16],
    pub nodes: &'a [u16],
    pub ghost ready: { Ready fields.now parameters.now nodes.now (10 + length fields.now / 3) },
}

// Field f, which is there.
pub fn field_from(fields: &[u16], f: u16) -> Declared
    requires { (FieldsReady fields.now) × (f < length fields.now / 3) }
    ensures { IsField (length fields.now / 3) (field_on fields.now f) result }
{
    let at = 3 * (f as usize);
    let code = fields[at + 2];
    Declared {
        shape: fields[at],
        kind: fields[at + 1],
        owner: declared_number(code),
        tagged: code == KEY_CODE_SHORT,
    }
}

// Parameter k; one that is missing reads as a private bool.
pub fn parameter_from(parameters: &[u16], k: u16) -> Given
    requires { ParametersReady parameters.now }
    ensures { IsParameter k (parameter_on parameters.now k) result }
{
    let at = 2 * (k as usize);
    if at + 1 < parameters.len() {
        Given {
            kind: parameters[at],
            owner: parameters[at + 1],
        }
    } else {
        Given {
            kind: BOOL_SHORT,
            owner: 1,
        }
    }
}

// "8. .. an owner code's field isn't final, .. or an owner code's parameter isn't a public address."
pub fn target_fits(fields: &[u16], parameters: &[u16], target: u16) -> bool
    requires { (FieldsReady fields.now) × (ParametersReady parameters.now) × (target < 10 + length fields.now / 3) }
    ensures { owner_fits (scope_from fields.now parameters.now) (owner_with target) ≡ result }
{
    if target < PARAMETERS {
        return true;
    }
    if target < FINALS {
        let given = parameter_from(parameters, target - PARAMETERS);
        return (given.kind == ADDRESS_SHORT) & (given.owner == EVERYONE_CODE_SHORT);
    }
    let declared = field_from(fields, target - FINALS);
    declared.shape == FINAL_SHORT
}
