// Recorded contract files: each is checked, written and reported on, and every number and byte is compared with those recorded beside it.
// A record is: length of the file (2), the file, its number (1), length of the written file (2), that file, length of the report (2), the
// report.
ghost use Rattle.std.specs.Prelude.{◌≡◌, ◌≤◌, ◌+◌};
ghost use Rattle.kit.specs.Names.{length};
ghost use Rattle.definitions.specs.Numbers.{check_number};
ghost use Rattle.test_shared.specs.Bytes.{same_bytes};
ghost use Rattle.test_programs.specs.FileRecords.{part_end, file_agrees, is_written_as, is_reported_as, FilesTally};
ghost use Rattle.test_programs.specs.Outputs.{unwritten, output_with, is_answer, writes_in};

use file_bytes::two_bytes_at;
use test_shared::{Tally, same_bytes};

// What stands in the output before a file is written, and must stand there still where nothing is.
const BEFORE: u8 = 170;

#[tactic(auto, unfolding(crate::specs::Outputs::unwritten))]
fn fill(out: &mut [u8])
    ensures { out.new ≡ unwritten (length out.old) }
{
    out.fill(BEFORE);
}

// Nothing was written over these bytes.
fn is_unwritten(bytes: &[u8]) -> bool
    ensures { result ≡ same_bytes bytes.now (unwritten (length bytes.now)) }
{
    let mut unwritten = true;
    for byte in bytes {
        unwritten = unwritten & (*byte == BEFORE);
    }
    unwritten
}

// The bytes are at the front, and behind them nothing was written.
fn holds(out: &[u8], bytes: &[u8]) -> bool
    ensures { result ≡ same_bytes out.now (output_with bytes.now (length out.now)) }
{
    if out.len() < bytes.len() {
        return false;
    }
    let (front, rest) = out.split_at(bytes.len());
    same_bytes(front, bytes) && is_unwritten(rest)
}

// An answer is the number that is due, and the bytes that are due are what it gave.
fn is_answer(number: u8, length: usize, out: &[u8], due: u8, bytes: &[u8]) -> bool
    ensures { result ≡ is_answer number length out.now due bytes.now }
{
    if number != due {
        return false;
    }
    if length != bytes.len() {
        return false;
    }
    holds(out, bytes)
}

// The file is written as recorded into the front of the output, of so many bytes.
fn agrees_in(file: &[u8], number: u8, written: &[u8], out: &mut [u8], room: usize) -> bool
    requires { (room ≤ length out.old) × (check_number file.now ≡ number) }
    ensures { result ≡ writes_in file.now number written.now room }
{
    fill(out);
    let answer = write_contract::write(file, &mut out[..room]);
    if number != 0 {
        return is_answer(answer.number, answer.length, out, number, b"");
    }
    if room < written.len() {
        return is_answer(answer.number, answer.length, out, 16, b"");
    }
    is_answer(answer.number, answer.length, out, 0, written)
}

// In ample room, in room for just the written file, and in one byte less.
fn writes(file: &[u8], number: u8, written: &[u8], out: &mut [u8]) -> bool
    requires { (49152 ≤ length out.old) × (check_number file.now ≡ number) }
    ensures { result ≡ is_written_as file.now number written.now }
{
    let length = written.len();
    if 49152 < length {
        return false;
    }
    if !agrees_in(file, number, written, out, 49152) {
        return false;
    }
    if !agrees_in(file, number, written, out, length) {
        return false;
    }
    if length == 0 {
        return true;
    }
    agrees_in(file, number, written, out, length - 1)
}

// An accepted file has its report; a refused one leaves the output as it was, and its number makes the recorded line.
fn reports(file: &[u8], number: u8, text: &[u8], out: &mut [u8]) -> bool
    requires { (49152 ≤ length out.old) × (check_number file.now ≡ number) }
    ensures { result ≡ is_reported_as file.now number text.now }
{
    fill(out);
    let answer = report_contract::report(file, out);
    if number == 0 {
        return is_answer(answer.number, answer.length, out, 0, text);
    }
    if !is_answer(answer.number, answer.length, out, number, b"") {
        return false;
    }
    let length = report_text::refused_line(number, out);
    is_answer(number, length, out, number, text)
}

fn agrees(file: &[u8], number: u8, written: &[u8], text: &[u8], out: &mut [u8]) -> bool
    requires { 49152 ≤ length out.old }
    ensures { result ≡ file_agrees file.now number written.now text.now }
{
    if check_contract::check(file) != number {
        return false;
    }
    if !writes(file, number, written, out) {
        return false;
    }
    reports(file, number, text, out)
}

// Where the part that begins at a place, with its length, ends. A length that is not there reads as 0.
fn part_end(input: &[u8], at: usize) -> usize
    requires { at ≤ 2000000 }
    ensures value { result ≡ part_end input.now at }
    ensures lower_bound { (at + 2 ≤ result) × (result ≤ at + 65537) }
{
    at + 2 + two_bytes_at(input, at)
}

// A record that is cut short counts as different, and ends the reading.
pub fn compare(input: &[u8], out: &mut [u8]) -> Tally
    requires { (length input.now ≤ 700000) × (49152 ≤ length out.old) }
    ensures { FilesTally input.now result }
{
    let mut records: usize = 0;
    let mut different: usize = 0;
    let mut at: usize = 0;
    // Kept: each turn goes on by the length that its record has, until the input ends.
    while at < input.len() {
        let file_end = part_end(input, at);
        let written_end = part_end(input, file_end + 1);
        let end = part_end(input, written_end);
        if input.len() < end {
            return Tally {
                records,
                different: different + 1,
            };
        }
        if !agrees(
            &input[at + 2..file_end],
            input[file_end],
            &input[file_end + 3..written_end],
            &input[written_end + 2..end],
            out,
        ) {
            different += 1;
        }
        records += 1;
        at = end;
    }
    Tally { records, different }
}
