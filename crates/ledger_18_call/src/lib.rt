// "18. The ledger isn't well formed": its last call is a possible one.
#![tactic(auto)]

ghost use Rattle.std.specs.Prelude.{◌≡◌, ◌≤◌};
ghost use Rattle.kit.specs.Names.{List, map, length};
ghost use Rattle.definitions.specs.Ledger.{Content, plain_number, is_after_call};
ghost use Rattle.definitions.specs.Numbers.{check_number};
ghost use Rattle.ledger_struct.specs.Ledgers.{ledger_from};

use file_bytes::read_layout;
use ledger_18_done::is_after_done;
use ledger_18_failed::is_after_failed;
use ledger_struct::LastCall;

// After a call: "its last call is .. a possible one".
pub fn is_after_call(
    file: &[u8],
    last: LastCall,
    parameters: &[u32],
    variables: &[u32],
    numbers: &[u32],
) -> bool
    requires { (check_number file.now ≡ 0) × (length parameters.now ≤ 40) }
    ensures { (places : List Content) → numbers.now ≡ map plain_number places → result ≡ is_after_call
        (ledger_from file.now last parameters.now variables.now places) }
{
    if last.call == 0 {
        return false;
    }
    let layout = read_layout(file);
    let function = last.function as usize;
    if layout.functions <= function {
        return false;
    }
    if 15 < last.caller {
        return false;
    }
    if is_after_done(file, last, parameters, variables, numbers) {
        return true;
    }
    is_after_failed(file, last, parameters, variables)
}
