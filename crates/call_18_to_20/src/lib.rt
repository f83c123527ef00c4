// 01, Numbers: 18 to 20, of a call on any ledger.
#![tactic(auto)]

ghost use Rattle.std.specs.Prelude.{◌≡◌, ◌/◌, ◌≤◌};
ghost use Rattle.kit.specs.Names.{length};
ghost use Rattle.definitions.specs.Ledger.{call_number};
ghost use Rattle.ledger_contents.specs.Contents.{contents_of};
ghost use Rattle.ledger_struct.specs.Ledgers.{ledger_from};

use call_18_callable::is_not_callable;
use call_19_arguments::arguments_off_for;
use call_numbers::{Request, number_19_or_20};

// The first of numbers 18 to 20 that holds of a call, or 0: nothing is called before it is known.
pub fn call_number(
    file: &[u8],
    request: Request,
    parameters: &[u32],
    variables: &[u32],
    places: &[u32],
    arguments: &[u32],
) -> u8
    requires { (length parameters.now ≤ 40) × (length places.now / 5 ≤ 1024) }
    ensures { result ≡ call_number (ledger_from file.now request.last parameters.now variables.now
        (contents_of places.now)) request.function request.caller arguments.now }
{
    let last = request.last;
    let function = request.function;
    let caller = request.caller;
    if is_not_callable(file, last, parameters, variables, places, function, caller) {
        return 18;
    }
    number_19_or_20(arguments_off_for(file, function, arguments), last.call)
}
