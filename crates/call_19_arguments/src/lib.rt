// "19. Arguments differ in number from the parameters, or one is outside its type."
#![tactic(auto)]

ghost use Rattle.std.specs.Prelude.{◌≡◌};
ghost use Rattle.file_accepted.specs.Context.{parameters_in};
ghost use Rattle.file_accepted.specs.Functions.{function_start};
ghost use Rattle.ledger_numbers.specs.Arguments.{arguments_off_for};

use file_functions::function_start;
use ledger_numbers::arguments_off;

// Against the parameters of a function that is given by its number: the file tells where it begins.
pub fn arguments_off_for(file: &[u8], function: u8, arguments: &[u32]) -> bool
    ensures { result ≡ arguments_off_for (parameters_in file.now (function_start file.now function))
        arguments.now }
{
    let function_at = function_start(file, function);
    arguments_off(file, function_at, arguments)
}
