// "18. The ledger isn't well formed": a ledger after a failed call.
#![tactic(auto)]

ghost use Rattle.std.specs.Prelude.{◌≡◌, ◌<◌};
ghost use Rattle.kit.specs.Names.{[]};
ghost use Rattle.definitions.specs.ContractFile.{function_count};
ghost use Rattle.definitions.specs.Ledger.{is_after_failed};
ghost use Rattle.definitions.specs.Numbers.{check_number};
ghost use Rattle.ledger_struct.specs.Ledgers.{ledger_from};

use file_functions::function_start;
use ledger_18_parameters::parameters_fit;
use ledger_struct::{FAILED, LastCall};

// After a failed call, which shows public parameters and no variables.
pub fn is_after_failed(file: &[u8], last: LastCall, parameters: &[u32], variables: &[u32]) -> bool
    requires { (check_number file.now ≡ 0) × (last.function < function_count file.now) }
    ensures { result ≡ is_after_failed
        (ledger_from file.now last parameters.now variables.now []) }
{
    if last.outcome != FAILED {
        return false;
    }
    let function_at = function_start(file, last.function);
    if parameters_fit(file, function_at, last.caller, false, parameters) {
        variables.len() < 5
    } else {
        false
    }
}
