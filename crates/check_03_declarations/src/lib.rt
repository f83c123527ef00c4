// Number 3 for fields and parameters: their shapes, types and owner codes.
#![tactic(auto)]

ghost use Rattle.std.specs.Prelude.{◌≡◌, ◌+◌, ◌*◌, ◌≤◌};
ghost use Rattle.kit.specs.Names.{length};
ghost use Rattle.definitions.specs.Basics.{any};
ghost use Rattle.definitions.specs.ContractFile.{is_final_code};
ghost use Rattle.definitions.specs.Numbers.{field_in_tables};
ghost use Rattle.file_decoded.specs.Slices.{parameters_from};
ghost use Rattle.check_03_declarations.specs.Outside.{parameter_outside};

use file_decoded::number_from;
use file_kinds::*;

// "16+f": an owner code that names a field; number 4 asks whether the field is there.
pub fn is_final_code(code: usize) -> bool
    ensures { result ≡ is_final_code code }
{
    (FINAL_CODES <= code) & (code < FINAL_CODES_END)
}

// "A field's owner is 0, 16+f, or 2 for a mapping only."
pub fn field_in_tables(shape: usize, data_type: usize, owner: usize) -> bool
    ensures { result ≡ field_in_tables (record { shape = shape; type = data_type; owner = owner }) }
{
    let for_all = owner == EVERYONE_CODE;
    let owned = for_all | is_final_code(owner) | (owner == KEY_CODE) & (shape == MAPPING);
    let right_if_final = (shape != FINAL) | (data_type == ADDRESS) & for_all;
    (shape <= MAPPING) & (data_type <= ADDRESS) & owned & right_if_final
}

// Whether some of a function's parameters is outside the tables.
pub fn parameters_outside(parameters: &[u16], from: usize, count: usize) -> bool
    requires { from + 2 * count ≤ length parameters.now }
    ensures { result ≡ any parameter_outside (parameters_from count parameters.now from) }
{
    for i in 0..count {
        let data_type = number_from(parameters, from + 2 * i);
        let owner = number_from(parameters, from + 2 * i + 1);
        if !((data_type <= ADDRESS) & (owner <= CALLER_CODE)) {
            return true;
        }
    }
    false
}
