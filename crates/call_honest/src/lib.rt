// 01, Runs and views: the honest call. Its parameters and supplied values are worked out from the original, on opened places, and are then
// handed to the call with given values, which walks the written body and knows nothing of the original.
#![tactic(auto)]

ghost use Rattle.std.specs.Prelude.{◌≡◌, ◌/◌, ◌≤◌};
ghost use Rattle.kit.specs.Names.{suc, length};
ghost use Rattle.definitions.specs.Ledger.{Ledger, call_number, call_with, honest_parameters_of, honest_variables_of};
ghost use Rattle.ledger_contents.specs.Contents.{contents_of};
ghost use Rattle.ledger_struct.specs.Ledgers.{ledger_from, Flat};
ghost use Rattle.call_with.specs.Calls.{MadeOf};
ghost use Rattle.call_honest.specs.Honest.{Placed, PlacedOnce, LogRoom, LogPut, Told, ToldOnce, Supplied};

use call_numbers::{Request, serial_call};
use call_with::{Made, call_with};
use file_accepted::CheckedFunction;
use file_decoded::{NODE_NUMBERS, numbers_room};
use file_functions::function_start;
use file_kinds::PARAMETER_CODES_END;
use file_source::decode_source;
use honest_parameters::put_parameters;
use honest_variables::{honest_slots, put_variables};
use ledger_addresses::put_addresses;
use ledger_numbers::opened_numbers;
use rewrite_statements::function_log;
use write_parameters::count_private;

// The number of the function that is called, who calls it, the number of the call, and how many of its parameters are private.
#[derive(Clone, Copy)]
struct Called {
    function: u8,
    caller: u8,
    call: u16,
    private: usize,
}

// The events of the function's body, which tell its variables.
fn log_body(function: &CheckedFunction, private: usize, log: &mut [u16]) -> usize
    requires { LogRoom function.now.file.now function.now.at private log.old }
    ensures { LogPut function.now.file.now function.now.at log.new result }
{
    let end = function_log(function, private, log);
    end.at
}

// The contents of the variables, from the number that the original works out for each. The places' numbers are used up.
fn supply_logged(
    function: &CheckedFunction,
    called: Called,
    arguments: &[u32],
    numbers: &mut [u32],
    log: &[u16],
    addresses: &[u32],
    supplied: &mut [u32],
) -> usize
    requires { (ToldOnce called.function called.caller arguments.now function.now.file.now function.now.at
        numbers.old log.now called.private addresses.now) × (length supplied.old ≡ 5120) }
    ensures { (l : Ledger) → Told l called.function called.caller arguments.now function.now.file.now
        function.now.at numbers.old log.now called.private
        addresses.now → called.call ≡ suc l.call
        → Flat (honest_variables_of l called.function called.caller arguments.now) supplied.new 1024 result }
{
    let caller = called.caller;
    let mut slots = [0u64; 1024];
    let made = honest_slots(function, numbers, arguments, caller, &mut slots[..]);
    let end = 5 * made;
    put_variables(
        log,
        called.private,
        &slots[..made],
        addresses,
        called.call,
        &mut supplied[..end],
    );
    end
}

// The contents of the parameters and of the variables, on the places opened.
fn supply(
    function: &CheckedFunction,
    called: Called,
    arguments: &[u32],
    places: &[u32],
    numbers: &mut [u32],
    given: &mut [u32],
    supplied: &mut [u32],
) -> usize
    requires { (PlacedOnce called.function called.caller arguments.now function.now.file.now function.now.at
        places.now called.private) × (length numbers.old ≡ length places.now / 5)
        × (length given.old ≡ 40) × (length supplied.old ≡ 5120) }
    ensures { (l : Ledger) → Placed l called.function called.caller arguments.now function.now.file.now
        function.now.at places.now called.private → called.call ≡ suc l.call
        → Supplied l called.function called.caller arguments.now given.new supplied.new result }
{
    let caller = called.caller;
    let size = 5 * arguments.len();
    opened_numbers(places, numbers);
    let mut addresses = [0u32; PARAMETER_CODES_END];
    put_addresses(
        function.file,
        function.at,
        caller,
        arguments,
        numbers,
        &mut addresses[..],
    );
    put_parameters(
        function.file,
        function.at,
        caller,
        called.call,
        arguments,
        &mut given[..size],
    );
    let mut log = [0u16; 5120];
    let logged = log_body(function, called.private, &mut log[..]);
    supply_logged(
        function,
        called,
        arguments,
        numbers,
        &log[..logged],
        &addresses[..],
        supplied,
    )
}

// "The honest call": the call with what the original works out, on a ledger that is taken apart. A done call leaves the places changed, and
// its variables at the front of `supplied`.
pub fn honest_call(
    file: &[u8],
    request: Request,
    parameters: &[u32],
    variables: &[u32],
    places: &mut [u32],
    arguments: &[u32],
    supplied: &mut [u32],
) -> Made
    requires { (call_number (ledger_from file.now request.last parameters.now variables.now (contents_of places.old))
        request.function request.caller arguments.now ≡ 0) × (length places.old / 5 ≤ 1024)
        × (length supplied.old ≡ 5120) }
    ensures { let l = ledger_from file.now request.last parameters.now variables.now
        (contents_of places.old) in MadeOf l (call_with l request.function request.caller
        (honest_parameters_of l request.function request.caller arguments.now)
        (honest_variables_of l request.function request.caller arguments.now))
        request.function request.caller places.new supplied.new result }
{
    let function = request.function;
    let caller = request.caller;
    let last = request.last;
    let call = serial_call(last.call);
    let function_at = function_start(file, function);
    let mut room = numbers_room::<NODE_NUMBERS>();
    let count = decode_source(file, &mut room[..]);
    let checked = CheckedFunction {
        file,
        at: function_at,
        source: &room[..count],
    };
    let shown = arguments.len();
    let private = count_private(file, function_at + 1, shown);
    let called = Called {
        function,
        caller,
        call,
        private,
    };
    let mut given = [0u32; 40];
    let size = 5 * shown;
    let mut numbers = [0u32; 1024];
    let many = places.len() / 5;
    let set = supply(
        &checked,
        called,
        arguments,
        places,
        &mut numbers[..many],
        &mut given[..],
        supplied,
    );
    call_with(
        &checked,
        caller,
        &given[..size],
        places,
        &mut supplied[..set],
    )
}
