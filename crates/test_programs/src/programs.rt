// Recorded inputs of our programs: what each prints is worked out, and every byte compared with what is recorded beside it. A record is:
// length of the program's name (1), the name, length of the options (1), the options, length of the input (4), the input, length of the
// expected output (4), that output. Numbers are low byte first.
ghost use Rattle.std.specs.Prelude.{◌≡◌, ◌+◌, ◌<◌, ◌≤◌};
ghost use Rattle.kit.specs.Names.{length, take};
ghost use Rattle.definitions.specs.ContractFile.{byte_at};
ghost use Rattle.definitions.specs.Numbers.{check_number};
ghost use Rattle.definitions.specs.Report.{report_text};
ghost use Rattle.definitions.specs.Rewriting.{written_file};
ghost use Rattle.ledger_struct.specs.Ledgers.{ledger_of};
ghost use Rattle.call.specs.Calls.{CalledOn};
ghost use Rattle.rehearse_scripts.specs.Scripts.{call_at, arguments_of};
ghost use Rattle.test_programs.specs.ProgramRecords.{answer_text, accepted_line, printed_by, line_of, script_lines, rehearsed, printed_for};
ghost use Rattle.test_programs.specs.ProgramRecords.{is_expected, IsRecord, program_agrees, ProgramsTally, Shown, behind_text};

use call::Called;
use file_bytes::byte_at;
use ledger_struct::{Ledger, at_most};
use rehearse_scripts::four_bytes_at;
use report_text::refused_line;
use test_shared::{Tally, part, same_bytes, view_room};

// Where the parts of a record end: each begins behind its length, which stands where the part before it ends.
#[derive(Clone, Copy)]
struct Record {
    name_end: usize,
    options_end: usize,
    input_end: usize,
    end: usize,
}

// The place behind a text that stands at a place of some bytes; 0 where it does not stand there.
// Kept: 0 stands for none in the definition that the contract cites, `behind_text`.
fn behind(text: &[u8], bytes: &[u8], at: usize) -> usize
    ensures { result ≡ behind_text text.now bytes.now at }
{
    if bytes.len() < at {
        return 0;
    }
    if bytes[at..].starts_with(text) {
        at + text.len()
    } else {
        0
    }
}

// The length of what a program prints: of the answer, which stands at the front of the output already, or of the line that takes its place
// where the number refuses.
fn answered(number: u8, end: usize, out: &mut [u8]) -> usize
    requires { (29 ≤ length out.old) × (end ≤ length out.old) }
    ensures { Shown (answer_text number (take end out.old)) out.new result }
{
    if number == 0 {
        end
    } else {
        refused_line(number, out)
    }
}

fn verdict(file: &[u8], out: &mut [u8]) -> usize
    requires { 29 ≤ length out.old }
    ensures { Shown (answer_text (check_number file.now) accepted_line) out.new result }
{
    let number = check_contract::check(file);
    let length = memory_append::append(b"accepted\n", out, 0);
    answered(number, length, out)
}

fn compile(file: &[u8], out: &mut [u8]) -> usize
    requires { 49152 ≤ length out.old }
    ensures { Shown (answer_text (check_number file.now) (written_file file.now)) out.new result }
{
    let answer = write_contract::write(file, out);
    answered(answer.number, answer.length, out)
}

fn report(file: &[u8], out: &mut [u8]) -> usize
    requires { 49152 ≤ length out.old }
    ensures { Shown (answer_text (check_number file.now) (report_text file.now)) out.new result }
{
    let answer = report_contract::report(file, out);
    answered(answer.number, answer.length, out)
}

// Whether the front of the output is all that is expected. Every program prints something, so that nothing is never right.
fn is_printed(end: usize, out: &[u8], expected: &[u8]) -> bool
    ensures { result ≡ is_expected (take end out.now) expected.now }
{
    let length = at_most(end, out.len());
    0 < length && same_bytes(&out[..length], expected)
}

// What the named program prints for a contract file stands at the front of the output. The answer is its length, 0 where the name is none
// of these.
fn printed(name: &[u8], file: &[u8], out: &mut [u8]) -> usize
    requires { 49152 ≤ length out.old }
    ensures { Shown (printed_by name.now file.now) out.new result }
{
    if same_bytes(b"verdict", name) {
        return verdict(file, out);
    }
    if same_bytes(b"compile", name) {
        return compile(file, out);
    }
    if same_bytes(b"report", name) {
        return report(file, out);
    }
    0
}

// The place behind a line of a rehearsal that is expected at a place; 0 where another one is.
fn line_end(
    number: u8,
    ledger: Ledger,
    party: u8,
    expected: &[u8],
    at: usize,
    out: &mut [u8],
) -> usize
    requires { 49152 ≤ length out.old }
    ensures { result ≡ behind_text (line_of number party (ledger_of ledger)) expected.now at }
{
    let mut view = view_room();
    let answer = view::view(ledger, party, &mut view);
    let length = at_most(answer.length, 20565);
    let end = rehearse_lines::write_line(number, &view[..length], out);
    behind(&out[..end], expected, at)
}

// What call k of a script answers on a ledger.
fn call_at(script: &[u8], k: u8, ledger: Ledger) -> Called
    ensures { CalledOn ledger (byte_at script.now (call_at script.now k))
        (byte_at script.now (call_at script.now k + 1)) (arguments_of script.now k) result }
{
    let parts = rehearse_scripts::read_call(script, k);
    let arguments = rehearse_scripts::arguments(script, k);
    let count = parts.arguments as usize;
    call::call(ledger, parts.function, parts.caller, &arguments[..count])
}

// Whether the lines of a script that deploys are as expected. No line is empty, so that 0 is never a place behind one, and the first line
// that differs ends the run.
fn runs(script: &[u8], deployed: Ledger, expected: &[u8], out: &mut [u8]) -> bool
    requires { 49152 ≤ length out.old }
    ensures { result ≡ is_expected (script_lines script.now (ledger_of deployed)) expected.now }
{
    let parts = rehearse_scripts::read_script(script);
    let mut ledger = deployed;
    let mut at = line_end(0, ledger, parts.party, expected, 0, out);
    for k in 0..parts.calls {
        if at == 0 {
            return false;
        }
        let called = call_at(script, k, ledger);
        ledger = called.ledger;
        at = line_end(called.number, ledger, parts.party, expected, at, out);
    }
    0 < at && at == expected.len()
}

// Whether `rehearse` prints what is expected.
fn rehearses(script: &[u8], expected: &[u8], out: &mut [u8]) -> bool
    requires { 49152 ≤ length out.old }
    ensures { result ≡ is_expected (rehearsed script.now) expected.now }
{
    if !rehearse_scripts::is_script(script) {
        return same_bytes(b"bad script\n", expected);
    }
    let deployment = deploy::deploy(
        rehearse_scripts::file_of(script),
        rehearse_scripts::addresses_of(script),
    );
    if 0 < deployment.number {
        let end = answered(deployment.number, 0, out);
        return is_printed(end, out, expected);
    }
    let ledger = deployment.ledger;
    runs(script, ledger, expected, out)
}

fn prints(name: &[u8], input: &[u8], expected: &[u8], out: &mut [u8]) -> bool
    requires { 49152 ≤ length out.old }
    ensures { result ≡ is_expected (printed_for name.now input.now) expected.now }
{
    if same_bytes(b"rehearse", name) {
        return rehearses(input, expected, out);
    }
    let end = printed(name, input, out);
    is_printed(end, out, expected)
}

// The record with which some bytes begin. A length that is not there reads as 0, and the record then ends past the bytes.
fn read_record(bytes: &[u8]) -> Record
    ensures fact { IsRecord bytes.now result }
    ensures name_end_bound { ((result.name_end ≤ result.end) × (result.options_end ≤ result.end)) × ((result.input_end < result.end) × (result.end ≤ 9000000000)) }
{
    let name_end = 1 + byte_at(bytes, 0);
    let options_end = name_end + 1 + byte_at(bytes, name_end);
    let input_end = options_end + 4 + four_bytes_at(bytes, options_end) as usize;
    let end = input_end + 4 + four_bytes_at(bytes, input_end) as usize;
    Record {
        name_end,
        options_end,
        input_end,
        end,
    }
}

// Whether the program of the record with which some bytes begin prints what is expected. None takes an option, and a record that is cut
// short says nothing to compare with.
fn agrees(bytes: &[u8], out: &mut [u8]) -> bool
    requires { 49152 ≤ length out.old }
    ensures { result ≡ program_agrees bytes.now }
{
    let record = read_record(bytes);
    if bytes.len() < record.end {
        return false;
    }
    let name = part(bytes, 1, record.name_end);
    let options = part(bytes, record.name_end + 1, record.options_end);
    let input = part(bytes, record.options_end + 4, record.input_end);
    let expected = part(bytes, record.input_end + 4, record.end);
    options.len() == 0 && prints(name, input, expected, out)
}

// A record that is cut short counts as different; it ends past the input, and so ends the reading.
pub fn compare(input: &[u8], out: &mut [u8]) -> Tally
    requires { (length input.now ≤ 700000) × (49152 ≤ length out.old) }
    ensures { ProgramsTally input.now result }
{
    let mut records: usize = 0;
    let mut different: usize = 0;
    let mut at: usize = 0;
    // Kept: each turn goes on by the length that its record has, until the input ends.
    while at < input.len() {
        let rest = part(input, at, input.len());
        let record = read_record(rest);
        if !agrees(rest, out) {
            different += 1;
        }
        records += 1;
        at += record.end;
    }
    Tally { records, different }
}
