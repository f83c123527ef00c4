// 01, Owners: the addresses that names stand for in a call, put down at their owner codes.
#![tactic(auto)]

ghost use Rattle.std.specs.Prelude.{◌≡◌, ◌<◌, ◌≤◌};
ghost use Rattle.definitions.specs.ContractFile.{final_name, parameter_name, field_count};
ghost use Rattle.ledger_addresses.specs.Addresses.{named, address_of_code, FewNames, AddressRoom, Addressed};

use file_bytes::byte_at;
use file_kinds::*;
use ledger_places::{number_at, position};

// The address that final f holds; a field that is not final holds none.
fn final_address(file: &[u8], f: usize, places: &[u32]) -> u32
    requires { field_count file.now ≤ 64 }
    ensures { result ≡ named file.now 0 0 places.now places.now (final_name f) }
{
    if f < byte_at(file, 0) {
        if byte_at(file, 1 + 3 * f) == FINAL {
            let p = position(file, f, 0);
            return number_at(places, p);
        }
    }
    0
}

// The argument of public parameter k; a private one is no name.
fn parameter_address(file: &[u8], function_at: usize, k: usize, arguments: &[u32]) -> u32
    requires { FewNames file.now function_at }
    ensures { result ≡ named file.now function_at 0 arguments.now arguments.now (parameter_name k) }
{
    if k < byte_at(file, function_at) {
        if byte_at(file, function_at + 1 + 2 * k + 1) == EVERYONE_CODE {
            return number_at(arguments, k);
        }
    }
    0
}

fn address_of_code(
    file: &[u8],
    function_at: usize,
    caller: u8,
    arguments: &[u32],
    places: &[u32],
    code: usize,
) -> u32
    requires { FewNames file.now function_at }
    ensures { result ≡ address_of_code file.now function_at caller arguments.now places.now code }
{
    if code == CALLER_CODE {
        return caller as u32;
    }
    if code < FINAL_CODES {
        return 0;
    }
    if code < FINAL_CODES_END {
        return final_address(file, code - FINAL_CODES, places);
    }
    if code < PARAMETER_CODES {
        return 0;
    }
    if code < PARAMETER_CODES_END {
        return parameter_address(file, function_at, code - PARAMETER_CODES, arguments);
    }
    0
}

// All addresses of a call, each at its owner code.
pub fn put_addresses(
    file: &[u8],
    function_at: usize,
    caller: u8,
    arguments: &[u32],
    places: &[u32],
    out: &mut [u32],
)
    requires { AddressRoom file.now function_at out.old }
    ensures { Addressed file.now function_at caller arguments.now places.now out.new }
{
    for (code, address) in out.iter_mut().enumerate() {
        *address = address_of_code(file, function_at, caller, arguments, places, code);
    }
}
