// 01, Rewriting: a function's parameters as they are written, and the reads that open its private ones.
#![tactic(auto)]

ghost use Rattle.std.specs.Prelude.{◌≡◌, ◌++◌, ◌+◌, ◌*◌, ◌≤◌};
ghost use Rattle.kit.specs.Names.{length};
ghost use Rattle.definitions.specs.Basics.{two_bytes};
ghost use Rattle.definitions.specs.ContractFile.{data_type_code, data_type_of, parameter_of};
ghost use Rattle.definitions.specs.Rewriting.{parameter_bytes};
ghost use Rattle.memory_append.specs.Append.{Appended};
ghost use Rattle.write_parameters.specs.Parameters.{parameter_read, parameters_from, private_count, one_if_private, opening_variables};
ghost use Rattle.write_parameters.specs.Parameters.{opening_claims};

use file_bytes::byte_at;
use file_kinds::*;
use memory_append::{append_byte, append_two_bytes};
use write_variables::READ_CELL;

fn type_code(code: usize) -> u8
    ensures { result ≡ data_type_code (data_type_of code) }
{
    if code == BOOL {
        BOOL_BYTE
    } else if code == UINT {
        UINT_BYTE
    } else {
        ADDRESS_BYTE
    }
}

// "private ones get type 3 (cell), and so do private parameters"
fn append_parameter(kind: usize, owner: usize, out: &mut [u8], at: usize) -> usize
    requires { at + length (parameter_bytes (parameter_of (parameter_read kind owner))) ≤ length out.old }
    ensures { Appended out.old out.new at (parameter_bytes (parameter_of (parameter_read kind owner))) result }
{
    if owner == EVERYONE_CODE {
        let next = append_byte(type_code(kind), out, at);
        append_byte(EVERYONE_BYTE, out, next)
    } else {
        let next = append_byte(CELL_BYTE, out, at);
        append_byte(CALLER_BYTE, out, next)
    }
}

// As many parameters as told, from a place of the file on.
pub fn append_parameters(
    file: &[u8],
    start: usize,
    count: usize,
    out: &mut [u8],
    from: usize,
) -> usize
    requires { (start + 2 * count ≤ 1000000) × (from + length (parameters_from count file.now start) ≤ length out.old) }
    ensures { Appended out.old out.new from (parameters_from count file.now start) result }
{
    let mut at = from;
    for i in 0..count {
        let place = start + 2 * i;
        at = append_parameter(byte_at(file, place), byte_at(file, place + 1), out, at);
    }
    at
}

fn one_if_private(owner: usize) -> usize
    ensures value { result ≡ one_if_private owner }
    ensures upper_bound { result ≤ 1 }
{
    if owner == EVERYONE_CODE { 0 } else { 1 }
}

// How many of them are private.
pub fn count_private(file: &[u8], start: usize, count: usize) -> usize
    requires { start + 2 * count ≤ 1000000 }
    ensures { result ≡ private_count count file.now start }
{
    let mut private = 0;
    for i in 0..count {
        private += one_if_private(byte_at(file, start + 2 * i + 1));
    }
    private
}

// "First, each private parameter is read": the variables of so many reads.
pub fn append_opening_variables(count: usize, out: &mut [u8], from: usize) -> usize
    requires { from + length (opening_variables count) ≤ length out.old }
    ensures { Appended out.old out.new from (opening_variables count) result }
{
    let mut at = from;
    for _ in 0..count {
        let next = append_byte(READ_CELL, out, at);
        at = append_byte(1, out, next);
    }
    at
}

fn append_opening_claim(variable: usize, out: &mut [u8], at: usize) -> usize
    requires { at + 6 ≤ length out.old }
    ensures { Appended out.old out.new at (two_bytes 0 ++ two_bytes variable ++ two_bytes 65535) result }
{
    let guard = append_two_bytes(0, out, at);
    let number = append_two_bytes(variable, out, guard);
    append_two_bytes(OPENS, out, number)
}

// ".. with a constraint that it opens for the caller"
pub fn append_opening_claims(count: usize, out: &mut [u8], from: usize) -> usize
    requires { from + length (opening_claims 0 count) ≤ length out.old }
    ensures { Appended out.old out.new from (opening_claims 0 count) result }
{
    let mut at = from;
    for variable in 0..count {
        at = append_opening_claim(variable, out, at);
    }
    at
}
