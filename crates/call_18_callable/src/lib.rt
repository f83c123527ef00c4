// "18. The ledger isn't well formed ..; or a caller is above 15, or the function doesn't exist."
#![tactic(auto)]

ghost use Rattle.std.specs.Prelude.{◌≡◌, ◌/◌, ◌≤◌};
ghost use Rattle.kit.specs.Names.{leb, length};
ghost use Rattle.definitions.specs.ContractFile.{function_count};
ghost use Rattle.definitions.specs.Ledger.{not_callable};
ghost use Rattle.ledger_contents.specs.Contents.{contents_of};
ghost use Rattle.ledger_struct.specs.Ledgers.{ledger_from};

use call_numbers::is_above_15;
use file_bytes::read_layout;
use ledger_18_test::is_well_formed;
use ledger_struct::LastCall;

// ".. or the function doesn't exist"
pub fn lacks_function(file: &[u8], function: u8) -> bool
    ensures { result ≡ leb (function_count file.now) function }
{
    let layout = read_layout(file);
    layout.functions <= function as usize
}

// "18. The ledger isn't well formed ..; or a caller is above 15, or the function doesn't exist."
pub fn is_not_callable(
    file: &[u8],
    last: LastCall,
    parameters: &[u32],
    variables: &[u32],
    places: &[u32],
    function: u8,
    caller: u8,
) -> bool
    requires { (length parameters.now ≤ 40) × (length places.now / 5 ≤ 1024) }
    ensures { result ≡ not_callable (ledger_from file.now last parameters.now variables.now
        (contents_of places.now)) function caller }
{
    if !is_well_formed(file, last, parameters, variables, places) {
        return true;
    }
    if is_above_15(caller) {
        return true;
    }
    lacks_function(file, function)
}
