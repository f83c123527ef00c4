// What programs read, to its end: the file that their first argument names, or standard input; or the file that any argument names.
#![tactic(auto)]

ghost use Rattle.std.specs.Prelude.{◌≡◌, ◌≤◌};
ghost use Rattle.kit.specs.Names.{length};
ghost use Rattle.io.specs.Counts.{IsPrefixLen};
ghost use Rattle.program_reading.specs.Inputs.{where_ready, fitting, Begins};

use program_output::{not_text, print, tell, too_long};
use program_reading::{read_from, read_on};
use std::env::{Env, FillError};
use std::fs::File;
use std::io::Error;
use std::str::from_utf8;

// How many bytes were read, and whether there is an input at all: a failure was told, and so was a bad use of the program. The programs
// name this struct, and so it is not the one of program_reading.
#[derive(Clone, Copy)]
pub struct Input {
    pub length: usize,
    pub ready: bool,
}

// How many bytes an input begins with, and whether there is one at all. Where it fills the room there may be more, to be read from the
// same file, or from standard input where there is none: a file that an argument names is closed wherever this is all of it.
#[derive(Drop)]
pub struct Beginning {
    pub length: usize,
    pub ready: bool,
    pub full: bool,
    pub file: Option<File>,
}

// One byte more than the longest accepted file has: what does not fill this room is read whole, and no accepted file fills it. A room is
// cleared before it is read into, and the larger ones are for inputs that need them.
pub fn short_contract_room() -> [u8; 4597]
    ensures { 4597 ≡ length result }
{
    [0; 4597]
}

// One byte more than a consistent file can have: a longer input has number 1, and so has its beginning.
pub fn contract_room() -> [u8; 655865]
    ensures { 655865 ≡ length result }
{
    [0; 655865]
}

// One byte more than a script has with an accepted file, 64 addresses and 255 calls of 8 arguments: one that fills this room has something
// that is refused.
pub fn short_script_room() -> [u8; 13591]
    ensures { 13591 ≡ length result }
{
    [0; 13591]
}

// One byte more than the longest script has: a longer input runs on, and so does its beginning.
pub fn script_room() -> [u8; 326661]
    ensures { 326661 ≡ length result }
{
    [0; 326661]
}

fn none_begun(room: &[u8]) -> Beginning
    ensures prefix_len { IsPrefixLen result.length room.now }
    ensures length_value { result.length ≡ where_ready result.ready result.length }
{
    Beginning {
        length: 0,
        ready: false,
        full: false,
        file: None,
    }
}

// What is told of an argument that cannot be had: the system's number for one that is not there, or is too long.
fn unread(why: FillError) -> Error {
    match why {
        FillError::NotPresent => Error::from_raw_os_error(22),
        FillError::TooLong => too_long(),
    }
}

fn begin_open(
    rt: &HostRuntime,
    program: &[u8],
    mut file: File,
    name: &[u8],
    room: &mut [u8],
) -> Beginning
    ensures prefix_len { IsPrefixLen result.length room.new }
    ensures length_value { result.length ≡ where_ready result.ready result.length }
{
    let input = read_from(rt, program, &mut file, name, room);
    let full = input.length == room.len();
    Beginning {
        length: input.length,
        ready: input.ready,
        full,
        file: if full { Some(file) } else { None },
    }
}

// The beginning of the file of a name. A failure is told by it.
fn begin_file(rt: &HostRuntime, program: &[u8], name: &[u8], room: &mut [u8]) -> Beginning
    ensures prefix_len { IsPrefixLen result.length room.new }
    ensures length_value { result.length ≡ where_ready result.ready result.length }
{
    match from_utf8(name) {
        Err(_) => {
            tell(rt, program, b": cannot read ", name, not_text());
            none_begun(room)
        }
        Ok(text) => match File::open(rt, text) {
            Err(error) => {
                tell(rt, program, b": cannot read ", name, error);
                none_begun(room)
            }
            Ok(file) => begin_open(rt, program, file, name, room),
        },
    }
}

// The beginning of the file that the argument at a place names. A failure is told, of the file by its name, and of an argument that cannot
// be read by the words that are given for it.
fn begin_named(
    rt: &HostRuntime,
    program: &[u8],
    place: usize,
    argument: &[u8],
    room: &mut [u8],
) -> Beginning
    ensures prefix_len { IsPrefixLen result.length room.new }
    ensures length_value { result.length ≡ where_ready result.ready result.length }
{
    let mut name = io::buffer();
    match rt.arg(place, &mut name) {
        Ok(long) => begin_file(rt, program, &name[..long], room),
        Err(why) => {
            tell(rt, program, b": cannot read ", argument, unread(why));
            none_begun(room)
        }
    }
}

// The file that the argument at a place names, up to its end or as much of it as there is room for.
pub fn read_named(
    rt: &HostRuntime,
    program: &[u8],
    place: usize,
    argument: &[u8],
    room: &mut [u8],
) -> Input
    ensures prefix_len { IsPrefixLen result.length room.new }
    ensures length_value { result.length ≡ where_ready result.ready result.length }
{
    let beginning = begin_named(rt, program, place, argument, room);
    Input {
        length: beginning.length,
        ready: beginning.ready,
    }
}

fn begin_standard(rt: &HostRuntime, program: &[u8], room: &mut [u8]) -> Beginning
    ensures prefix_len { IsPrefixLen result.length room.new }
    ensures length_value { result.length ≡ where_ready result.ready result.length }
{
    let input = read_from(rt, program, &mut rt.stdin(), b"standard input", room);
    Beginning {
        length: input.length,
        ready: input.ready,
        full: input.length == room.len(),
        file: None,
    }
}

// The beginning of the input of a program that takes so many file names. With an option, or a name too many, nothing is read.
pub fn begin_input(rt: &HostRuntime, program: &[u8], most: usize, room: &mut [u8]) -> Beginning
    ensures prefix_len { IsPrefixLen result.length room.new }
    ensures length_value { result.length ≡ where_ready result.ready result.length }
{
    let names = program_arguments::read_names(rt, most);
    if !names.known {
        print(rt, program, b"bad option\n");
        return none_begun(room);
    }
    if names.count == 0 {
        begin_standard(rt, program, room)
    } else {
        begin_named(rt, program, 1, b"its first argument", room)
    }
}

// An input that filled the room in which it was begun, in a larger one: the bytes that were read come to its front, and what is left of
// the input behind them.
pub fn read_rest(
    rt: &HostRuntime,
    program: &[u8],
    beginning: Beginning,
    start: &[u8],
    room: &mut [u8],
) -> Input
    ensures prefix_len { IsPrefixLen result.length room.new }
    ensures length_value { result.length ≡ where_ready result.ready result.length }
    ensures room_bound { where_ready result.ready (fitting start.now room.new) ≤ result.length }
    ensures begins { Begins start.now room.new }
{
    let read = read_on(rt, program, beginning.file, start, room);
    Input {
        length: read.length,
        ready: read.ready,
    }
}
