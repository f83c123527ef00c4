// An input read to its end: at once, or what is left of it behind a beginning that filled a smaller room. The edits of what programs read
// stand here, apart from the arguments and the rooms (program_input).
#![tactic(auto)]

ghost use Rattle.std.specs.Prelude.{◌≡◌, ◌≤◌};
ghost use Rattle.kit.specs.Names.{min, length, take};
ghost use Rattle.io.specs.Counts.{IsPrefixLen};
ghost use Rattle.program_reading.specs.Inputs.{where_ready, fitting, Begins};

use program_output::tell;
use std::env::Env;
use std::fs::File;
use std::io::{Error, Read as Source};

// How many bytes stand at the front of the room, and the error of a read that failed behind them. None did where the input ended, and
// none where the room is full; then there may be more.
#[derive(Clone, Copy)]
pub struct Reading {
    pub length: usize,
    pub failed: Option<Error>,
}

// How many bytes were read, and whether there is an input at all: a failure was told, and so was a bad use of the program.
// Kept: what `read_on` promises is about the count of every answer, by `where_ready` of whether there is an input.
#[derive(Clone, Copy)]
pub struct Read {
    pub length: usize,
    pub ready: bool,
}

// As many reads as it takes to come to the input's end or to fill the room.
pub fn read_all<S: Source>(source: &mut S, room: &mut [u8]) -> Reading
    ensures { IsPrefixLen result.length room.new }
{
    let mut done: usize = 0;
    // Kept: each turn goes on by as many bytes as the input gives, until it ends.
    while done < room.len() {
        match source.read(&mut room[done..]) {
            Ok(0) => break,
            Ok(length) => done += length,
            Err(error) => {
                return Reading {
                    length: done,
                    failed: Some(error),
                };
            }
        }
    }
    Reading {
        length: done,
        failed: None,
    }
}

pub fn read_from<S: Source>(
    rt: &HostRuntime,
    program: &[u8],
    source: &mut S,
    name: &[u8],
    room: &mut [u8],
) -> Read
    ensures prefix_len { IsPrefixLen result.length room.new }
    ensures length_value { result.length ≡ where_ready result.ready result.length }
{
    let reading = read_all(source, room);
    if let Some(error) = reading.failed {
        tell(rt, program, b": cannot read ", name, error);
        return Read {
            length: 0,
            ready: false,
        };
    }
    Read {
        length: reading.length,
        ready: true,
    }
}

// What is left of an input, behind the bytes that the room begins with; the answer counts those too.
fn read_behind<S: Source>(
    rt: &HostRuntime,
    program: &[u8],
    source: &mut S,
    name: &[u8],
    room: &mut [u8],
    count: usize,
) -> Read
    requires { count ≤ length room.old }
    ensures prefix_len { IsPrefixLen result.length room.new }
    ensures length_value { result.length ≡ where_ready result.ready result.length }
    ensures count_bound { where_ready result.ready count ≤ result.length }
    ensures room_unchanged { take count room.new ≡ take count room.old }
    ensures room_len_unchanged { length room.new ≡ length room.old }
{
    let rest = read_from(rt, program, source, name, &mut room[count..]);
    Read {
        length: if rest.ready { count + rest.length } else { 0 },
        ready: rest.ready,
    }
}

// The bytes at the front of the room, as many of them as it has room for; the answer counts them.
fn copy_start(start: &[u8], room: &mut [u8]) -> usize
    ensures value { result ≡ fitting start.now room.new }
    ensures begins { Begins start.now room.new }
{
    let count = start.len().min(room.len());
    room[..count].copy_from_slice(&start[..count]);
    count
}

// An input that filled the room in which it was begun, in a larger one: the bytes that were read come to its front, and what is left of
// the input behind them. It is standard input where there is no file; a file's name is read again, for a failure to be told by.
pub fn read_on(
    rt: &HostRuntime,
    program: &[u8],
    file: Option<File>,
    start: &[u8],
    room: &mut [u8],
) -> Read
    ensures prefix_len { IsPrefixLen result.length room.new }
    ensures length_value { result.length ≡ where_ready result.ready result.length }
    ensures room_bound { where_ready result.ready (fitting start.now room.new) ≤ result.length }
    ensures begins { Begins start.now room.new }
{
    let count = copy_start(start, room);
    match file {
        Some(mut named) => {
            let mut name = io::buffer();
            let long = rt.arg(1, &mut name).unwrap_or(0);
            read_behind(rt, program, &mut named, &name[..long], room, count)
        }
        None => read_behind(rt, program, &mut rt.stdin(), b"standard input", room, count),
    }
}
