// What programs print and write: all of some bytes, or a line on standard error that says what could not be done. It serves document 01's
// "A refused file prints `refused N`" (File A, whole).
#![tactic(auto)]

mod files;

ghost use Rattle.std.specs.Prelude.{◌+◌, ◌<◌, ◌≤◌, IfOk};
ghost use Rattle.kit.specs.Names.{length};
ghost use Rattle.definitions.specs.Report.{refused_line};

pub use files::{Kept, deliver, not_text, too_long, write_file};
use std::io::{Error, ErrorKind, Write};

// How many bytes were taken, and the error that stopped it: none where all of them were.
#[derive(Clone, Copy)]
pub struct Written {
    pub length: usize,
    pub failed: Option<Error>,
}

// As many writes as it takes. The answer counts the bytes that were taken: fewer than all only where a write failed.
pub fn write_all<W: Write>(out: &mut W, bytes: &[u8]) -> Written
    ensures { result.length ≤ length bytes.now }
{
    let mut done: usize = 0;
    // Kept: each turn goes on by as many bytes as the system takes, and std's `write_all` does not say how many that were where it fails.
    while done < bytes.len() {
        match write_once(out, &bytes[done..]) {
            Ok(taken) => done += taken,
            Err(error) => {
                return Written {
                    length: done,
                    failed: Some(error),
                };
            }
        }
    }
    Written {
        length: done,
        failed: None,
    }
}

// A write that takes nothing has failed, whatever it answers.
fn write_once<W: Write>(out: &mut W, bytes: &[u8]) -> Result<usize, Error>
    ensures { IfOk result (λ taken. (0 < taken) × (taken ≤ length bytes.now)) }
{
    match out.write(bytes)? {
        0 => Err(Error::from(ErrorKind::WriteZero)),
        taken => Ok(taken),
    }
}

// The system's words for an error, without its number. Where there is no memory to put them into, the error has no words.
fn reason(rt: &HostRuntime, error: Error) -> String {
    let text = match format!(in rt.alloc(); "{error}") {
        Ok(text) => text,
        Err(_) => return String::new(rt.alloc()),
    };
    match text.split_once(" (os error ") {
        Some((words, _)) => match String::from_str(rt.alloc(), words) {
            Ok(words) => words,
            Err(_) => String::new(rt.alloc()),
        },
        None => text,
    }
}

// A line such as `compile: cannot read my.contract: No such file or directory`, where the action is `: cannot read `. The answer counts
// the bytes before the file's name.
pub fn tell(rt: &HostRuntime, program: &[u8], action: &[u8], name: &[u8], error: Error) -> usize
    ensures { result ≤ length program.now + length action.now }
{
    let mut out = rt.stderr();
    let first = write_all(&mut out, program);
    let second = write_all(&mut out, action);
    write_all(&mut out, name);
    write_all(&mut out, b": ");
    write_all(&mut out, reason(rt, error).as_bytes());
    write_all(&mut out, b"\n");
    first.length + second.length
}

// Bytes on standard output; the answer counts those that were taken, and a failure is told.
pub fn print(rt: &HostRuntime, program: &[u8], bytes: &[u8]) -> usize
    ensures { result ≤ length bytes.now }
{
    let done = write_all(&mut rt.stdout(), bytes);
    if let Some(error) = done.failed {
        tell(rt, program, b": cannot write ", b"standard output", error);
    }
    done.length
}

// "A refused file prints `refused N`."
pub fn print_refused(rt: &HostRuntime, program: &[u8], number: u8) -> usize
    ensures { result ≤ length (refused_line number) }
{
    let mut line: [u8; 29] = [0; 29];
    let end = report_text::refused_line(number, &mut line);
    print(rt, program, &line[..end])
}
