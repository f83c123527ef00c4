// "18. The ledger isn't well formed": a ledger after a done call.
#![tactic(auto)]

ghost use Rattle.std.specs.Prelude.{◌≡◌, ◌<◌, ◌≤◌, ◌/◌};
ghost use Rattle.kit.specs.Names.{List, map, length};
ghost use Rattle.definitions.specs.ContractFile.{function_count};
ghost use Rattle.definitions.specs.Ledger.{Content, plain_number, all_fit, is_after_done};
ghost use Rattle.definitions.specs.Numbers.{check_number};
ghost use Rattle.definitions.specs.Original.{address_in};
ghost use Rattle.file_accepted.specs.Context.{scope_in};
ghost use Rattle.ledger_contents.specs.Contents.{contents_of};
ghost use Rattle.ledger_struct.specs.Ledgers.{ledger_from};
ghost use Rattle.ledger_18_forms.specs.Forms.{fits_or_zero};
ghost use Rattle.write_function_room.specs.Functions.{written_in, FunctionRoom};
ghost use Rattle.ledger_18_variable.specs.Variables.{variable_form};

use file_accepted::CheckedFunction;
use file_decoded::{NODE_NUMBERS, numbers_room};
use file_functions::function_start;
use file_kinds::PARAMETER_CODES_END;
use file_source::decode_source;
use ledger_18_parameters::parameters_fit;
use ledger_18_variables::variables_fit;
use ledger_addresses::put_addresses;
use ledger_numbers::plain_numbers;
use ledger_struct::{DONE, LastCall};

// The variables of the last call, which was done, by the addresses of the names in it.
pub fn done_variables_fit(
    function: &CheckedFunction,
    caller: u8,
    parameters: &[u32],
    numbers: &[u32],
    variables: &[u32],
) -> bool
    requires function_room { FunctionRoom function.now.file.now function.now.at 0 0 }
    requires parameters_len_bound { length parameters.now ≤ 40 }
    ensures { result ≡ all_fit fits_or_zero
        (map (variable_form (scope_in function.now.file.now function.now.at)
        (address_in (scope_in function.now.file.now function.now.at) caller
        (map plain_number (contents_of parameters.now)) numbers.now))
        (written_in function.now.file.now function.now.at).variables)
        (contents_of variables.now) }
{
    let count = parameters.len() / 5;
    let mut arguments = [0u32; 8];
    plain_numbers(parameters, &mut arguments[..]);
    let mut addresses = [0u32; PARAMETER_CODES_END];
    put_addresses(
        function.file,
        function.at,
        caller,
        &arguments[..count],
        numbers,
        &mut addresses[..],
    );
    variables_fit(function, &addresses[..], variables)
}

// After a done call, which shows all parameters and the variables.
pub fn is_after_done(
    file: &[u8],
    last: LastCall,
    parameters: &[u32],
    variables: &[u32],
    numbers: &[u32],
) -> bool
    requires { (check_number file.now ≡ 0) × (last.function < function_count file.now) × (length parameters.now ≤ 40) }
    ensures { (places : List Content) → numbers.now ≡ map plain_number places → result ≡ is_after_done
        (ledger_from file.now last parameters.now variables.now places) }
{
    if last.outcome != DONE {
        return false;
    }
    let function_at = function_start(file, last.function);
    if parameters_fit(file, function_at, last.caller, true, parameters) {
        let mut room = numbers_room::<NODE_NUMBERS>();
        let count = decode_source(file, &mut room[..]);
        let function = CheckedFunction {
            file,
            at: function_at,
            source: &room[..count],
        };
        done_variables_fit(&function, last.caller, parameters, numbers, variables)
    } else {
        false
    }
}
