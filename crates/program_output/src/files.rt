// A written file under its name, wholly or not at all: it is made beside that name and takes it at the end.
ghost use Rattle.std.specs.Prelude.{Some, pos, ◌≡◌, ◌≤◌};
ghost use Rattle.kit.specs.Names.{length};
ghost use Rattle.std.specs.IoError.{error_kind, raw_os_error};
ghost use Rattle.program_output.specs.Counts.{all_or_none};

use crate::{print, tell, write_all};
use memory_append::append;
use std::env::{Env, FillError};
use std::fs::{File, OpenOptions, remove_file, rename};
use std::io::{Error, ErrorKind};
use std::str::from_utf8;

// Whether all of the bytes are kept, and how many that is.
// Kept: what `write_file` promises is about the count of every answer, by `all_or_none` of whether it is whole.
#[derive(Clone, Copy)]
pub struct Kept {
    pub whole: bool,
    pub length: usize,
}

// Room for the longest name that the system takes and for the ending.
fn name_room() -> [u8; 4112]
    ensures { 4112 ≡ length result }
{
    [0; 4112]
}

// Room for the longest name that the system takes.
fn argument_room() -> [u8; 4096]
    ensures { 4096 ≡ length result }
{
    [0; 4096]
}

// All of the bytes into a new file, down to its device. The file is closed then.
fn fill(mut file: File, bytes: &[u8]) -> Result<(), Error> {
    let done = write_all(&mut file, bytes);
    if let Some(error) = done.failed {
        return Err(error);
    }
    file.sync_all()
}

// Whether a file may take this name: it is free, or that of a file. A folder cannot be opened so, and a device has nothing to sync, which
// keeps one from being replaced.
fn is_replaceable(rt: &HostRuntime, name: &str) -> Result<(), Error> {
    match OpenOptions::new().read(true).write(true).open(rt, name) {
        Ok(file) => file.sync_all(),
        Err(error) if error.kind() == ErrorKind::NotFound => Ok(()),
        Err(error) => Err(error),
    }
}

// A file of this name that was not there before.
fn create(rt: &HostRuntime, new_name: &str) -> Result<File, Error> {
    OpenOptions::new()
        .write(true)
        .create_new(true)
        .open(rt, new_name)
}

// The new file gets its bytes, and then the name. Where that fails it is told and removed, and the name's own file is as it was.
fn replace(rt: &HostRuntime, program: &[u8], new_name: &str, name: &str, bytes: &[u8]) -> bool {
    if let Err(error) = is_replaceable(rt, name) {
        tell(rt, program, b": cannot write ", name.as_bytes(), error);
        return false;
    }
    let file = match create(rt, new_name) {
        Ok(file) => file,
        Err(error) => {
            tell(rt, program, b": cannot write ", new_name.as_bytes(), error);
            return false;
        }
    };
    if let Err(error) = fill(file, bytes) {
        tell(rt, program, b": cannot write ", new_name.as_bytes(), error);
        let _removed = remove_file(rt, new_name);
        return false;
    }
    if let Err(error) = rename(rt, new_name, name) {
        tell(rt, program, b": cannot write ", name.as_bytes(), error);
        let _removed = remove_file(rt, new_name);
        return false;
    }
    true
}

// The same of names as bytes: today's library opens names that are text alone.
fn replace_named(
    rt: &HostRuntime,
    program: &[u8],
    new_name: &[u8],
    name: &[u8],
    bytes: &[u8],
) -> bool {
    match (from_utf8(new_name), from_utf8(name)) {
        (Ok(new_text), Ok(text)) => replace(rt, program, new_text, text, bytes),
        _ => {
            tell(rt, program, b": cannot write ", name, not_text());
            false
        }
    }
}

// What is told of a name that is not text.
pub fn not_text() -> Error
    ensures { error_kind result ≡ ErrorKind.InvalidInput }
{
    Error::new(ErrorKind::InvalidInput, "the name is not UTF-8")
}

// What is told of an argument that is longer than the longest name: the system's number for that.
pub fn too_long() -> Error
    ensures { raw_os_error result ≡ Some (pos 36) }
{
    Error::from_raw_os_error(36)
}

// The new file's name is the other with `.new` behind it; where that is taken nothing is written. A name that is too long is told by
// the system, whose limit is below the room here.
pub fn write_file(rt: &HostRuntime, program: &[u8], name: &[u8], bytes: &[u8]) -> Kept
    ensures { result.length ≡ all_or_none result.whole (length bytes.now) }
{
    let mut room = name_room();
    if name.len() > 4096 {
        tell(rt, program, b": cannot write ", name, too_long());
        return Kept {
            whole: false,
            length: 0,
        };
    }
    let end = append(name, &mut room, 0);
    let long = append(b".new", &mut room, end);
    if replace_named(rt, program, &room[..long], name, bytes) {
        Kept {
            whole: true,
            length: bytes.len(),
        }
    } else {
        Kept {
            whole: false,
            length: 0,
        }
    }
}

// The file that the second argument names, or standard output where there is no second argument. The answer counts what was taken.
pub fn deliver(rt: &HostRuntime, program: &[u8], bytes: &[u8]) -> usize
    ensures { result ≤ length bytes.now }
{
    let mut name = argument_room();
    match rt.arg(2, &mut name) {
        Err(FillError::NotPresent) => print(rt, program, bytes),
        Err(FillError::TooLong) => {
            tell(
                rt,
                program,
                b": cannot write ",
                b"its second argument",
                too_long(),
            );
            0
        }
        Ok(long) => {
            let kept = write_file(rt, program, &name[..long], bytes);
            kept.length
        }
    }
}
