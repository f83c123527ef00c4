// 01, Runs and views: a call's honest parameters, and the public ones alone, as flat contents.
#![tactic(auto)]

ghost use Rattle.std.specs.Prelude.{◌≡◌, ◌<◌, ◌/◌};
ghost use Rattle.kit.specs.Names.{length};
ghost use Rattle.definitions.specs.ContractFile.{byte_at};
ghost use Rattle.definitions.specs.Ledger.{content_at, honest_parameters};
ghost use Rattle.file_accepted.specs.Context.{parameters_in};
ghost use Rattle.ledger_contents.specs.Contents.{contents_of};
ghost use Rattle.ledger_readers.specs.Readers.{reader_of_code, Short};
ghost use Rattle.honest_parameters.specs.Parameters.{ParametersNear, ParametersRoom, PublicRoom, PublicPut, Picked, is_private};
ghost use Rattle.honest_parameters.specs.Parameters.{reader_for};

use file_bytes::byte_at;
use file_kinds::EVERYONE_CODE;
use ledger_contents::{content_at, put_content};
use ledger_readers::{Reader, content_for};

// The caller for a private parameter, all for a public one.
fn parameter_reader(file: &[u8], function_at: usize, k: usize, caller: u8) -> Reader
    requires { (ParametersNear file.now function_at) × (k < byte_at file.now function_at) }
    ensures result_value { reader_of_code result ≡ reader_for file.now function_at k caller }
    ensures short { Short result }
{
    if byte_at(file, function_at + 1 + 2 * k + 1) == EVERYONE_CODE {
        Reader::Anyone
    } else {
        Reader::Only(caller as u32)
    }
}

// "a private argument's is the call and parameter"
pub fn put_parameters(
    file: &[u8],
    function_at: usize,
    caller: u8,
    call: u16,
    arguments: &[u32],
    flat: &mut [u32],
)
    requires { ParametersRoom file.now function_at arguments.now flat.old }
    ensures { contents_of flat.new
        ≡ honest_parameters caller call 0 (parameters_in file.now function_at) arguments.now }
{
    for (k, value) in arguments.iter().enumerate() {
        let reader = parameter_reader(file, function_at, k, caller);
        let content = content_for(reader, call, k as u16, *value);
        put_content(flat, k, content);
    }
}

// Parameter k behind r others, where it is public; how many there are then.
fn put_if_public(
    file: &[u8],
    function_at: usize,
    k: usize,
    parameters: &[u32],
    flat: &mut [u32],
    r: usize,
) -> usize
    requires { (ParametersNear file.now function_at) × ((k < byte_at file.now function_at) × (r < length flat.old / 5)) }
    ensures { Picked (is_private file.now function_at k) (content_at (contents_of parameters.now) k)
        flat.old flat.new r result }
{
    if byte_at(file, function_at + 1 + 2 * k + 1) == EVERYONE_CODE {
        let content = content_at(parameters, k);
        put_content(flat, r, content);
        r + 1
    } else {
        r
    }
}

// A failed call "shows public parameters": those of all parameters, from the front on, and their number.
pub fn put_public(file: &[u8], function_at: usize, parameters: &[u32], flat: &mut [u32]) -> usize
    requires { PublicRoom file.now function_at parameters.now flat.old }
    ensures { PublicPut file.now function_at parameters.now flat.new result }
{
    let count = byte_at(file, function_at);
    let mut r = 0;
    for k in 0..count {
        r = put_if_public(file, function_at, k, parameters, flat, r);
    }
    r
}
