// 01, Rewriting: a function's heading, "parameters; .. variables ..; .. keys ..; .. constraints ..; body root".
#![tactic(auto)]

ghost use Rattle.std.specs.Prelude.{◌≡◌, ◌+◌, ◌≤◌};
ghost use Rattle.kit.specs.Names.{length};
ghost use Rattle.write_variables.specs.PerEntry.{count_tag};
ghost use Rattle.memory_append.specs.Append.{Appended};
ghost use Rattle.write_headings.specs.Parts.{parameter_part, private_of, variable_part, key_part};
ghost use Rattle.write_headings.specs.Parts.{claims_of, claim_part, heading_parts, HeadingFits};

use file_bytes::byte_at;
use memory_append::{append_byte, append_two_bytes};
use rewrite_log::CLAIM_LOGGED;
use write_claims::append_claims;
use write_parameters::{
    append_opening_claims, append_opening_variables, append_parameters, count_private,
};
use write_variables::{append_keys, append_variables, count_tag};

fn append_parameter_part(file: &[u8], function_at: usize, out: &mut [u8], at: usize) -> usize
    requires { (function_at ≤ 200000) × (at + length (parameter_part file.now function_at) ≤ length out.old) }
    ensures { Appended out.old out.new at (parameter_part file.now function_at) result }
{
    let count = byte_at(file, function_at);
    let next = append_byte(count as u8, out, at);
    append_parameters(file, function_at + 1, count, out, next)
}

fn append_variable_part(
    private: usize,
    made: usize,
    log: &[u16],
    out: &mut [u8],
    at: usize,
) -> usize
    requires { (private + made ≤ 65535) × (at + length (variable_part private made log.now) ≤ length out.old) }
    ensures { Appended out.old out.new at (variable_part private made log.now) result }
{
    let count = append_two_bytes(private + made, out, at);
    let opened = append_opening_variables(private, out, count);
    append_variables(log, out, opened)
}

// The keys are counted once they stand behind the place of their count.
fn append_key_part(log: &[u16], out: &mut [u8], at: usize) -> usize
    requires { at + length (key_part log.now) ≤ length out.old }
    ensures { Appended out.old out.new at (key_part log.now) result }
{
    let end = append_keys(log, out, at + 2);
    append_two_bytes(end - (at + 2), out, at);
    end
}

fn append_claim_part(
    private: usize,
    log: &[u16],
    numbers: &[u16],
    out: &mut [u8],
    at: usize,
) -> usize
    requires { (private + count_tag 1 log.now ≤ 65535)
        × (at + length (claim_part private log.now (claims_of numbers.now)) ≤ length out.old) }
    ensures { Appended out.old out.new at
        (claim_part private log.now (claims_of numbers.now)) result }
{
    let count = append_two_bytes(private + count_tag(log, CLAIM_LOGGED), out, at);
    let opened = append_opening_claims(private, out, count);
    append_claims(numbers, numbers.len() / 4, out, opened)
}

fn private_of(file: &[u8], function_at: usize) -> usize
    requires { function_at ≤ 200000 }
    ensures { result ≡ private_of file.now function_at }
{
    let count = byte_at(file, function_at);
    count_private(file, function_at + 1, count)
}

// `made` is how many variables the log makes, `numbers` its constraints, four numbers each, and `root` the body's root.
pub fn append_heading(
    file: &[u8],
    function_at: usize,
    made: usize,
    log: &[u16],
    numbers: &[u16],
    root: usize,
    out: &mut [u8],
    from: usize,
) -> usize
    requires { HeadingFits file.now function_at made log.now (claims_of numbers.now) root from (length out.old) }
    ensures { Appended out.old out.new from
        (heading_parts file.now function_at made log.now (claims_of numbers.now) root) result }
{
    let private = private_of(file, function_at);
    let parameters = append_parameter_part(file, function_at, out, from);
    let variables = append_variable_part(private, made, log, out, parameters);
    let keys = append_key_part(log, out, variables);
    let constraints = append_claim_part(private, log, numbers, out, keys);
    append_two_bytes(root, out, constraints)
}
