// 01, Runs and views: what a call would disclose to a party, told before the call is made.
#![tactic(auto)]

ghost use Rattle.std.specs.Prelude.{◌≡◌, ◌/◌, ◌≤◌};
ghost use Rattle.kit.specs.Names.{length};
ghost use Rattle.definitions.specs.Ledger.{call_number};
ghost use Rattle.definitions.specs.View.{disclosed_on};
ghost use Rattle.memory_append.specs.Append.{Appended};
ghost use Rattle.ledger_contents.specs.Contents.{contents_of};
ghost use Rattle.ledger_struct.specs.Ledgers.{ledger_of, ledger_from};
ghost use Rattle.disclose_call.specs.Disclosed.{body_discloses, BodyReady, DisclosedTo};

use call_18_to_20::call_number;
use call_numbers::Request;
use check_refusals::is_refused;
use disclose_expressions::Asked;
use disclose_output::{hand_over, refusal};
use disclose_statements::disclose_statement;
use file_accepted::CheckedFunction;
use file_decoded::{NODE_NUMBERS, numbers_room};
use file_functions::function_start;
use file_kinds::PARAMETER_CODES_END;
use file_source::decode_source;
use honest_variables::root_at;
use ledger_addresses::put_addresses;
use ledger_numbers::opened_numbers;
use ledger_struct::{LastCall, Ledger, at_most, flat_parameters, flat_places, flat_variables};
use memory_answer::Answer;

// The call that would be made, and the party that asks what it would be told.
#[derive(Clone, Copy)]
struct Question {
    request: Request,
    party: u8,
}

// What the body of the function at a place discloses. The places' numbers are used up.
fn disclose_body(
    file: &[u8],
    function_at: usize,
    caller: u8,
    party: u8,
    arguments: &[u32],
    numbers: &mut [u32],
    values: &mut [u32],
) -> usize
    requires { BodyReady file.now function_at caller arguments.now numbers.old party values.old }
    ensures { Appended values.old values.new 0
        (body_discloses file.now function_at caller arguments.now numbers.old party) result }
{
    let mut addresses = [0u32; PARAMETER_CODES_END];
    put_addresses(
        file,
        function_at,
        caller,
        arguments,
        numbers,
        &mut addresses[..],
    );
    let mut room = numbers_room::<NODE_NUMBERS>();
    let count = decode_source(file, &mut room[..]);
    let function = CheckedFunction {
        file,
        at: function_at,
        source: &room[..count],
    };
    let who = Asked {
        caller,
        party,
        at: 0,
    };
    let root = root_at(file, function_at);
    let told = disclose_statement(
        &function,
        who,
        numbers,
        arguments,
        &addresses[..],
        root,
        values,
    );
    told.at
}

// The original works on the places opened.
fn disclose_on(
    file: &[u8],
    question: Question,
    parameters: &[u32],
    variables: &[u32],
    places: &[u32],
    arguments: &[u32],
    numbers: &mut [u32],
    values: &mut [u32],
) -> usize
    requires { (call_number (ledger_from file.now question.request.last parameters.now variables.now (contents_of places.now))
        question.request.function question.request.caller arguments.now ≡ 0)
        × (length numbers.old ≡ length places.now / 5) × (512 ≤ length values.old) }
    ensures { Appended values.old values.new 0
        (disclosed_on (ledger_from file.now question.request.last parameters.now variables.now
        (contents_of places.now)) question.request.function question.request.caller arguments.now
        question.party) result }
{
    let party = question.party;
    let request = question.request;
    opened_numbers(places, numbers);
    let function_at = function_start(file, request.function);
    disclose_body(
        file,
        function_at,
        request.caller,
        party,
        arguments,
        numbers,
        values,
    )
}

// The request on a ledger that is taken apart.
fn disclosed_apart(
    file: &[u8],
    question: Question,
    parameters: &[u32],
    variables: &[u32],
    places: &[u32],
    arguments: &[u32],
    out: &mut [u32],
) -> Answer
    requires { (length parameters.now ≤ 40) × (length places.now / 5 ≤ 1024) }
    ensures { DisclosedTo (ledger_from file.now question.request.last parameters.now
        variables.now (contents_of places.now)) question.request.function question.request.caller
        arguments.now question.party out.old out.new result }
{
    let party = question.party;
    let request = question.request;
    let number = refusal(
        call_number(file, request, parameters, variables, places, arguments),
        party,
    );
    if is_refused(number) {
        return Answer { number, length: 0 };
    }
    let many = places.len() / 5;
    let mut numbers = [0u32; 1024];
    let mut values = [0u32; 512];
    let count = disclose_on(
        file,
        question,
        parameters,
        variables,
        places,
        arguments,
        &mut numbers[..many],
        &mut values[..],
    );
    hand_over(&values[..count], out)
}

// What the call would tell the party, before it is made. Wrong programs that this rules out: one that tells a party what is revealed to
// another, or a value that no reveal shows; one that tells what stands behind a failure, or writes where it refuses.
pub fn disclosed(
    l: Ledger,
    function: u8,
    caller: u8,
    arguments: &[u32],
    party: u8,
    out: &mut [u32],
) -> Answer
    ensures { DisclosedTo (ledger_of l) function caller arguments.now party out.old out.new result }
{
    let bytes = l.file;
    let length = at_most(l.file_length, 4596);
    let question = Question {
        request: Request {
            last: LastCall {
                call: l.call,
                function: l.function,
                caller: l.caller,
                outcome: l.outcome,
            },
            function,
            caller,
        },
        party,
    };
    let mut parameters = [0u32; 40];
    let shown = flat_parameters(l, &mut parameters[..]);
    let mut variables = [0u32; 5120];
    let set = flat_variables(l, &mut variables[..]);
    let mut places = [0u32; 5120];
    let held = flat_places(l, &mut places[..]);
    disclosed_apart(
        &bytes[..length],
        question,
        &parameters[..shown],
        &variables[..set],
        &places[..held],
        arguments,
        out,
    )
}
