// Whether the variables of a ledger's last call have the types and the owners that the file asks.
#![tactic(auto)]

ghost use Rattle.std.specs.Prelude.{◌≡◌, ◌≤◌};
ghost use Rattle.kit.specs.Names.{map, length, get_or, drop};
ghost use Rattle.definitions.specs.ContractFile.{byte_at};
ghost use Rattle.definitions.specs.Ledger.{all_fit};
ghost use Rattle.file_accepted.specs.Context.{parameters_in, scope_in};
ghost use Rattle.ledger_contents.specs.Contents.{contents_of};
ghost use Rattle.ledger_circuits.specs.Circuits.{address_from};
ghost use Rattle.write_function_room.specs.Functions.{written_in, FunctionRoom};
ghost use Rattle.ledger_18_forms.specs.Forms.{fits_or_zero, front_fits};
ghost use Rattle.ledger_18_variable.specs.Variables.{opening_forms, logged_forms, variable_form};

use file_accepted::CheckedFunction;
use file_bytes::byte_at;
use file_kinds::{CALLER_CODE, EVERYONE_CODE};
use ledger_18_forms::variable_fits_at;
use ledger_18_variable::{code_reader, entry_type};
use ledger_types::parameter_type;
use rewrite_log::makes_none;
use rewrite_statements::function_log;
use write_parameters::count_private;

// "First, each private parameter is read": cells of the caller's.
fn openings_fit(file: &[u8], function_at: usize, addresses: &[u32], flat: &[u32]) -> bool
    requires { (function_at ≤ 200000) × (byte_at file.now function_at ≤ 8) }
    ensures { result ≡ front_fits fits_or_zero
        (opening_forms (parameters_in file.now function_at) (get_or addresses.now 1 0) 0)
        (contents_of flat.now) }
{
    let count = byte_at(file, function_at);
    let mut p: usize = 0;
    for k in 0..count {
        if byte_at(file, function_at + 1 + 2 * k + 1) == EVERYONE_CODE {
            continue;
        }
        let code = parameter_type(file, function_at, k);
        let reader = code_reader(addresses, CALLER_CODE);
        if !variable_fits_at(flat, p, code, reader) {
            return false;
        }
        p += 1;
    }
    true
}

// The variables that the entries of a log make, which stand from a position on.
fn log_fits(
    function: &CheckedFunction,
    log: &[u16],
    addresses: &[u32],
    from: usize,
    flat: &[u32],
) -> bool
    requires { (from ≤ 1024) × (length log.now ≤ 5120) }
    ensures { result ≡ all_fit fits_or_zero (logged_forms function.now.file.now function.now.at addresses.now log.now)
        (drop from (contents_of flat.now)) }
{
    let mut p = from;
    for e in 0..log.len() / 5 {
        let tag = log[5 * e];
        if makes_none(tag) {
            continue;
        }
        let code = entry_type(function, tag, log[5 * e + 3] as usize);
        let reader = code_reader(addresses, log[5 * e + 2] as usize);
        if !variable_fits_at(flat, p, code, reader) {
            return false;
        }
        p += 1;
    }
    flat.len() / 5 <= p
}

// A log with room for the events of any function.
fn empty_log() -> [u16; 5120]
    ensures { length result ≡ 5120 }
{
    [0u16; 5120]
}

// The variables of the function that begins at a place, in a call where its names have these addresses.
pub fn variables_fit(function: &CheckedFunction, addresses: &[u32], flat: &[u32]) -> bool
    requires { FunctionRoom function.now.file.now function.now.at 0 0 }
    ensures { result ≡ all_fit fits_or_zero
        (map (variable_form (scope_in function.now.file.now function.now.at) (address_from addresses.now))
        (written_in function.now.file.now function.now.at).variables)
        (contents_of flat.now) }
{
    if openings_fit(function.file, function.at, addresses, flat) {
        let count = byte_at(function.file, function.at);
        let private = count_private(function.file, function.at + 1, count);
        let mut log = empty_log();
        let end = function_log(function, private, &mut log[..]);
        let logged = end.at;
        log_fits(function, &log[..logged], addresses, private, flat)
    } else {
        false
    }
}
