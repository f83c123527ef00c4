// What the test programs share: the file that an argument names, parts of it, rooms, and the lines that are printed.
#![tactic(auto)]

ghost use Rattle.std.specs.Prelude.{◌≡◌, ◌++◌, ◌+◌, ◌≤◌};
ghost use Rattle.kit.specs.Names.{length};
ghost use Rattle.definitions.specs.Report.{decimal};
ghost use Rattle.io.specs.Counts.{IsPrefixLen};
ghost use Rattle.memory_append.specs.Append.{Appended};
ghost use Rattle.program_reading.specs.Inputs.{where_ready};
ghost use Rattle.test_shared.specs.Parts.{part_in};
ghost use Rattle.test_shared.specs.Bytes.{same_bytes};
ghost use Rattle.test_shared.specs.Lines.{tally_line};

use memory_append::append;
use program_input::Input;
use report_text::append_digits;

// How many records were read, and how many of them differ.
#[derive(Clone, Copy)]
pub struct Tally {
    pub records: usize,
    pub different: usize,
}

// The file that a program's argument at a place names, at the front of the room. A failure is told, and then there is no input.
pub fn read_named(rt: &HostRuntime, program: &[u8], place: usize, room: &mut [u8]) -> Input
    ensures prefix_len { IsPrefixLen result.length room.new }
    ensures length_value { result.length ≡ where_ready result.ready result.length }
{
    program_input::read_named(rt, program, place, b"an argument", room)
}

// The bytes from one place up to another; none where they are not all there.
pub fn part<'a>(input: &'a [u8], start: usize, end: usize) -> &'a [u8]
    ensures { result.now ≡ part_in start end input.now }
{
    if input.len() < end {
        return &input[0..0];
    }
    if end < start {
        return &input[0..0];
    }
    &input[start..end]
}

pub fn same_bytes(left: &[u8], right: &[u8]) -> bool
    ensures { result ≡ same_bytes left.now right.now }
{
    left == right
}

// Room for the longest of the recorded files: a program reads them into it one after another, so that its stack holds one room.
pub fn input_room() -> [u8; 700000]
    ensures { 700000 ≡ length result }
{
    [0; 700000]
}

// The longest view.
pub fn view_room() -> [u8; 20565]
    ensures { 20565 ≡ length result }
{
    [0; 20565]
}

// Room for what is written: a file, a report, or a line of a rehearsal.
pub fn output_room() -> [u8; 49152]
    ensures { 49152 ≡ length result }
{
    [0; 49152]
}

// A count of at most twenty digits, and what is counted.
fn append_count(count: usize, word: &[u8], out: &mut [u8], at: usize) -> usize
    requires { at + 20 + length word.now ≤ length out.old }
    ensures { Appended out.old out.new at (decimal count ++ word.now) result }
{
    let next = append_digits(20, count, out, at);
    append(word, out, next)
}

fn tally_line(count: usize, what: &[u8], wrong: usize, how: &[u8], out: &mut [u8]) -> usize
    requires { (length what.now + length how.now ≤ 36) × (76 ≤ length out.old) }
    ensures { Appended out.old out.new 0 (tally_line count what.now wrong how.now) result }
{
    let next = append_count(count, what, out, 0);
    append_count(wrong, how, out, next)
}

// A line such as `150 runs, 0 different`. The answer counts the bytes of it that were printed.
pub fn print(
    rt: &HostRuntime,
    program: &[u8],
    count: usize,
    what: &[u8],
    wrong: usize,
    how: &[u8],
) -> usize
    requires { length what.now + length how.now ≤ 36 }
    ensures { result ≤ length (tally_line count what.now wrong how.now) }
{
    let mut line: [u8; 76] = [0; 76];
    let end = tally_line(count, what, wrong, how, &mut line);
    program_output::print(rt, program, &line[..end])
}
