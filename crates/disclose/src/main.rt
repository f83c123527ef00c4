// Reads a rehearsal script and prints a line for each call: its number and, where it is taken, each value that it discloses to the
// script's party, as told before the call is made. A refused deployment prints `refused` and its number alone; what is no script prints
// `bad script`, before anything is run. The script is the file that the one argument names, or standard input.
#![tactic(auto)]

ghost use Rattle.std.specs.Prelude.{◌≡◌};
ghost use Rattle.kit.specs.Names.{length};

use call::Called;
use ledger_struct::Ledger;
use program_input::{Beginning, begin_input, read_rest, script_room, short_script_room};
use program_output::{print, print_refused};

// A call discloses at most as many values as a file has nodes.
fn value_room() -> [u32; 512]
    ensures { 512 ≡ length result }
{
    [0; 512]
}

fn line_room() -> [u8; 10773]
    ensures { 10773 ≡ length result }
{
    [0; 10773]
}

// The number of a call, and the values that it discloses. The answer is whether all of it was printed.
fn print_line(rt: &HostRuntime, number: u8, values: &[u32]) -> bool {
    let mut line = line_room();
    let end = disclose_lines::write_line(number, values, &mut line);
    print(rt, b"disclose", &line[..end]) == end
}

// What call k of the script answers on a ledger.
fn call_at(bytes: &[u8], k: u8, ledger: Ledger) -> Called {
    let parts = rehearse_scripts::read_call(bytes, k);
    let arguments = rehearse_scripts::arguments(bytes, k);
    let count = parts.arguments as usize;
    call::call(ledger, parts.function, parts.caller, &arguments[..count])
}

// The line of call k, which has this number on the ledger. One that is refused discloses nothing, and neither does any to a party
// above 15.
fn tell_call(rt: &HostRuntime, bytes: &[u8], k: u8, ledger: Ledger, number: u8, party: u8) -> bool {
    let parts = rehearse_scripts::read_call(bytes, k);
    let arguments = rehearse_scripts::arguments(bytes, k);
    let count = parts.arguments as usize;
    let mut values = value_room();
    let answer = disclose_call::disclosed(
        ledger,
        parts.function,
        parts.caller,
        &arguments[..count],
        party,
        &mut values,
    );
    let length = ledger_struct::at_most(answer.length, 512);
    print_line(rt, number, &values[..length])
}

// A line that cannot be printed ends it: one failure is told once.
fn disclose(rt: &HostRuntime, bytes: &[u8]) {
    let script = rehearse_scripts::read_script(bytes);
    let deployment = deploy::deploy(
        rehearse_scripts::file_of(bytes),
        rehearse_scripts::addresses_of(bytes),
    );
    if 0 < deployment.number {
        print_refused(rt, b"disclose", deployment.number);
        return;
    }
    let mut ledger = deployment.ledger;
    for k in 0..script.calls {
        let called = call_at(bytes, k, ledger);
        if !tell_call(rt, bytes, k, ledger, called.number, script.party) {
            return;
        }
        ledger = called.ledger;
    }
}

fn answer(rt: &HostRuntime, bytes: &[u8]) {
    if rehearse_scripts::is_script(bytes) {
        disclose(rt, bytes);
    } else {
        print(rt, b"disclose", b"bad script\n");
    }
}

// A function of its own, so that the large room is cleared for an input that fills the short one alone.
fn answer_long(rt: &HostRuntime, beginning: Beginning, start: &[u8]) {
    let mut bytes = script_room();
    let input = read_rest(rt, b"disclose", beginning, start, &mut bytes);
    let length = input.length;
    if input.ready {
        answer(rt, &bytes[..length]);
    }
}

fn main(rt: HostRuntime) {
    let mut bytes = short_script_room();
    let beginning = begin_input(&rt, b"disclose", 1, &mut bytes);
    let length = beginning.length;
    if beginning.full {
        answer_long(&rt, beginning, &bytes);
    } else if beginning.ready {
        answer(&rt, &bytes[..length]);
    }
}
