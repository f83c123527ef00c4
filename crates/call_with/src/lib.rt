// 01, Runs and views: a call with given parameters and supplied values: the written body walked, and what the ledger shows after it.
#![tactic(auto)]

ghost use Rattle.std.specs.Prelude.{◌≡◌, ◌+◌, ◌*◌, ◌≤◌, ◌/◌};
ghost use Rattle.kit.specs.Names.{map, ℕ, length};
ghost use Rattle.definitions.specs.ContractFile.{byte_at, node_count};
ghost use Rattle.definitions.specs.Ledger.{Ledger, plain_number, call_with};
ghost use Rattle.ledger_contents.specs.Contents.{contents_of};
ghost use Rattle.ledger_addresses.specs.Addresses.{AddressRoom, Addressed};
ghost use Rattle.walk_expressions.specs.Evaluation.{state_of};
ghost use Rattle.write_function_room.specs.Functions.{FunctionRoom};
ghost use Rattle.call_with.specs.Calls.{Walked, WalkedWith, Standing, MadeOf};

use file_accepted::CheckedFunction;
use file_kinds::PARAMETER_CODES_END;
use honest_parameters::put_public;
use ledger_addresses::put_addresses;
use ledger_contents::Place;
use ledger_numbers::plain_numbers;
use ledger_struct::{DONE, FAILED, filled};
use walk_function::walk_function;
use write_extents::is_short;

// What a call leaves beside the places: how it went, the parameters that it shows, and how many numbers its variables are.
#[derive(Drop)]
pub struct Made {
    pub outcome: u8,
    pub parameters: [Place; 8],
    pub parameter_count: usize,
    pub variables: usize,
}

// The addresses of the names in a call with these parameters on these places.
fn call_addresses(
    file: &[u8],
    function_at: usize,
    caller: u8,
    parameters: &[u32],
    places: &[u32],
    out: &mut [u32],
)
    requires { (AddressRoom file.now function_at out.old)
        × ((length parameters.now / 5 ≤ 8) × (length places.now / 5 ≤ 1024)) }
    ensures { Addressed file.now function_at caller (map plain_number (contents_of parameters.now))
        (map plain_number (contents_of places.now)) out.new }
{
    let count = parameters.len() / 5;
    let many = places.len() / 5;
    let mut arguments = [0u32; 8];
    let mut numbers = [0u32; 1024];
    plain_numbers(parameters, &mut arguments[..]);
    plain_numbers(places, &mut numbers[..]);
    put_addresses(
        file,
        function_at,
        caller,
        &arguments[..count],
        &numbers[..many],
        out,
    );
}

// The memory that a walk needs is made here, of lengths that suffice for the file's nodes.
fn walk_in_room<const LOG: usize, const NUMBERS: usize, const ROOTS: usize, const NODES: usize>(
    function: &CheckedFunction,
    addresses: &[u32],
    parameters: &[u32],
    places: &mut [u32],
    variables: &mut [u32],
) -> bool
    requires room { FunctionRoom function.now.file.now function.now.at 0 0 }
    requires log_space { 10 * node_count function.now.file.now ≤ LOG }
    requires numbers_space { 4 * node_count function.now.file.now + 32 ≤ NUMBERS }
    requires roots_space { 3 * node_count function.now.file.now + 16 ≤ 2 * ROOTS }
    requires nodes_space { 64 * node_count function.now.file.now + 5076 ≤ NODES }
    requires small { (LOG ≤ 5120) × (NUMBERS ≤ 2080) × (ROOTS ≤ 776) × (NODES ≤ 37844) }
    ensures { Walked function.now.file.now function.now.at addresses.now parameters.now
        (state_of places.old variables.old) (state_of places.new variables.new) result }
{
    let mut log = [0u16; LOG];
    let mut numbers = [0u16; NUMBERS];
    let mut roots = [0u16; ROOTS];
    let mut nodes = [0u8; NODES];
    walk_function(
        function,
        addresses,
        &mut log,
        &mut numbers,
        &mut roots,
        &mut nodes,
        parameters,
        places,
        variables,
    )
}

// Memory for a contract of at most 64 nodes costs less to clear.
fn walk_called(
    function: &CheckedFunction,
    addresses: &[u32],
    parameters: &[u32],
    places: &mut [u32],
    variables: &mut [u32],
) -> bool
    requires { FunctionRoom function.now.file.now function.now.at 0 0 }
    ensures { Walked function.now.file.now function.now.at addresses.now parameters.now
        (state_of places.old variables.old) (state_of places.new variables.new) result }
{
    if is_short(function.source.len() / 5) {
        walk_in_room::<640, 288, 104, 9172>(function, addresses, parameters, places, variables)
    } else {
        walk_in_room::<5120, 2080, 776, 37844>(function, addresses, parameters, places, variables)
    }
}

// "A call walks the function's written body on the ledger's plain values and cells", with these parameters and supplied values. Where
// the answer is false the contents are to be given up.
fn walk_with(
    function: &CheckedFunction,
    caller: u8,
    parameters: &[u32],
    places: &mut [u32],
    variables: &mut [u32],
) -> bool
    requires { (FunctionRoom function.now.file.now function.now.at 0 0)
        × (length parameters.now / 5 ≤ 8) × (length places.old / 5 ≤ 1024) }
    ensures { WalkedWith function.now.file.now function.now.at caller parameters.now
        (state_of places.old variables.old) (state_of places.new variables.new) result }
{
    let mut addresses = [0u32; PARAMETER_CODES_END];
    call_addresses(
        function.file,
        function.at,
        caller,
        parameters,
        places,
        &mut addresses[..],
    );
    walk_called(function, &addresses[..], parameters, places, variables)
}

// The call on the ledger's places: a done call leaves them and the variables as the walk does, and shows all parameters; a failed one
// shows the public ones alone, no variables, and the places are to be given up.
pub fn call_with(
    function: &CheckedFunction,
    caller: u8,
    parameters: &[u32],
    places: &mut [u32],
    variables: &mut [u32],
) -> Made
    requires { (FunctionRoom function.now.file.now function.now.at 0 0)
        × (length parameters.now ≡ 5 * byte_at function.now.file.now function.now.at) × (length places.old / 5 ≤ 1024) }
    ensures { (l : Ledger) (n : ℕ) → Standing l n function.now.file.now function.now.at places.old
        → MadeOf l (call_with l n caller (contents_of parameters.now) (contents_of variables.old))
        n caller places.new variables.new result }
{
    if walk_with(function, caller, parameters, places, variables) {
        let shown = filled(parameters);
        return Made {
            outcome: DONE,
            parameters: shown,
            parameter_count: parameters.len() / 5,
            variables: variables.len(),
        };
    }
    let mut public = [0u32; 40];
    let count = put_public(function.file, function.at, parameters, &mut public[..]);
    let end = 5 * count;
    let shown = filled(&public[..end]);
    Made {
        outcome: FAILED,
        parameters: shown,
        parameter_count: count,
        variables: 0,
    }
}
