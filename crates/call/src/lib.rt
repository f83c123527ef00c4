// 01, Runs and views: a call on a ledger, whatever ledger, caller, function and arguments are given.
#![tactic(auto)]

ghost use Rattle.std.specs.Prelude.{◌≡◌, ◌<◌, ◌/◌, ◌≤◌};
ghost use Rattle.kit.specs.Names.{length};
ghost use Rattle.ledger_contents.specs.Contents.{contents_of};
ghost use Rattle.ledger_struct.specs.Ledgers.{ledger_of, ledger_from};
ghost use Rattle.call.specs.Calls.{CalledOn, struct_after};

use call_18_to_20::call_number;
use call_honest::honest_call;
use call_numbers::Request;
use call_with::Made;
use check_refusals::is_refused;
use ledger_struct::{
    DONE, LastCall, Ledger, at_most, filled, flat_parameters, flat_places, flat_variables,
};

// A number, 0 where the call was made, and the ledger after it: the one that was given where the call is refused.
#[derive(Drop)]
pub struct Called {
    pub number: u8,
    pub ledger: Ledger,
}

// The ledger after a call, put together from what the call leaves: the value that was given, with its places where the call failed.
fn after_call(
    l: Ledger,
    made: Made,
    function: u8,
    caller: u8,
    variables: &[u32],
    places: &[u32],
) -> Ledger
    requires { (l.call < 65535) × (length variables.now / 5 ≤ 1024) × (length places.now / 5 ≤ 1024) }
    ensures { result ≡ struct_after l made function caller variables.now places.now }
{
    let bytes = l.file;
    let shown = made.parameters;
    let held = l.places;
    let set = filled::<1024>(variables);
    let mut after = Ledger {
        file: bytes,
        file_length: l.file_length,
        call: l.call + 1,
        function,
        caller,
        outcome: made.outcome,
        parameters: shown,
        parameter_count: made.parameter_count,
        variables: set,
        variable_count: variables.len() / 5,
        places: held,
        place_count: l.place_count,
    };
    if made.outcome == DONE {
        let moved = filled::<1024>(places);
        after.places = moved;
        after.place_count = places.len() / 5;
    }
    after
}

// The call on a ledger that is taken apart.
fn called_on(
    l: Ledger,
    file: &[u8],
    request: Request,
    parameters: &[u32],
    variables: &[u32],
    places: &mut [u32],
    arguments: &[u32],
) -> Called
    requires { (ledger_from file.now request.last parameters.now variables.now (contents_of places.old) ≡ ledger_of l)
        × (length parameters.now ≤ 40) × (length places.old / 5 ≤ 1024) }
    ensures { CalledOn l request.function request.caller arguments.now result }
{
    let function = request.function;
    let caller = request.caller;
    let number = call_number(file, request, parameters, variables, places, arguments);
    if is_refused(number) {
        return Called { number, ledger: l };
    }
    let mut supplied = [0u32; 5120];
    let made = honest_call(
        file,
        request,
        parameters,
        variables,
        places,
        arguments,
        &mut supplied[..],
    );
    let end = made.variables;
    let after = after_call(l, made, function, caller, &supplied[..end], places);
    Called {
        number: 0,
        ledger: after,
    }
}

// A call on any ledger at all. Wrong programs that this rules out: one that makes a refused call, or hands back another ledger with its
// number; one that leaves every place alone, or echoes the first call.
pub fn call(l: Ledger, function: u8, caller: u8, arguments: &[u32]) -> Called
    ensures { CalledOn l function caller arguments.now result }
{
    let bytes = l.file;
    let length = at_most(l.file_length, 4596);
    let request = Request {
        last: LastCall {
            call: l.call,
            function: l.function,
            caller: l.caller,
            outcome: l.outcome,
        },
        function,
        caller,
    };
    let mut parameters = [0u32; 40];
    let shown = flat_parameters(l, &mut parameters[..]);
    let mut variables = [0u32; 5120];
    let set = flat_variables(l, &mut variables[..]);
    let mut places = [0u32; 5120];
    let held = flat_places(l, &mut places[..]);
    called_on(
        l,
        &bytes[..length],
        request,
        &parameters[..shown],
        &variables[..set],
        &mut places[..held],
        arguments,
    )
}
