// "18. The ledger isn't well formed": a ledger before any call.
#![tactic(auto)]

ghost use Rattle.std.specs.Prelude.{◌≡◌};
ghost use Rattle.kit.specs.Names.{[]};
ghost use Rattle.definitions.specs.Ledger.{is_before_calls};
ghost use Rattle.ledger_struct.specs.Ledgers.{ledger_from};

use ledger_struct::LastCall;

// "Before any call": nothing was called. A content is five numbers.
pub fn is_before_calls(last: LastCall, parameters: &[u32], variables: &[u32]) -> bool
    ensures { result ≡ is_before_calls (ledger_from [] last parameters.now variables.now []) }
{
    if last.call != 0 {
        return false;
    }
    if last.function != 0 {
        return false;
    }
    if last.caller != 0 {
        return false;
    }
    if last.outcome != 0 {
        return false;
    }
    if 5 <= parameters.len() {
        return false;
    }
    variables.len() < 5
}
