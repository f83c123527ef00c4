// Reads a rehearsal script and prints a line for the deployment and one for each call: its number and the party's view after it. A
// refused deployment prints `refused` and its number; what is no script prints `bad script`, before anything is run. The script is the
// file that the one argument names, or standard input.
#![tactic(auto)]

ghost use Rattle.std.specs.Prelude.{◌≡◌};
ghost use Rattle.kit.specs.Names.{length};

use call::Called;
use ledger_struct::Ledger;
use program_input::{Beginning, begin_input, read_rest, script_room, short_script_room};
use program_output::{print, print_refused};

// The longest view: 5 bytes, and 10 for each of 8 parameters, 1024 variables and 1024 places.
fn view_room() -> [u8; 20565]
    ensures { 20565 ≡ length result }
{
    [0; 20565]
}

fn line_room() -> [u8; 41135]
    ensures { 41135 ≡ length result }
{
    [0; 41135]
}

// The number, and the party's view of the ledger; a party above 15 has an empty one. The answer is whether all of it was printed.
fn print_line(
    rt: &HostRuntime,
    number: u8,
    ledger: Ledger,
    party: u8,
    view: &mut [u8],
    line: &mut [u8],
) -> bool
    requires { (length view.old ≡ 20565) × (length line.old ≡ 41135) }
{
    let answer = view::view(ledger, party, view);
    let length = ledger_struct::at_most(answer.length, 20565);
    let end = rehearse_lines::write_line(number, &view[..length], line);
    print(rt, b"rehearse", &line[..end]) == end
}

// What call k of the script answers on a ledger.
fn call_at(bytes: &[u8], k: u8, ledger: Ledger) -> Called {
    let parts = rehearse_scripts::read_call(bytes, k);
    let arguments = rehearse_scripts::arguments(bytes, k);
    let count = parts.arguments as usize;
    call::call(ledger, parts.function, parts.caller, &arguments[..count])
}

// A line that cannot be printed ends the rehearsal: one failure is told once.
fn rehearse(rt: &HostRuntime, bytes: &[u8]) {
    let script = rehearse_scripts::read_script(bytes);
    let deployment = deploy::deploy(
        rehearse_scripts::file_of(bytes),
        rehearse_scripts::addresses_of(bytes),
    );
    if 0 < deployment.number {
        print_refused(rt, b"rehearse", deployment.number);
        return;
    }
    // Made once for all lines: a line needs no more of them than it writes.
    let mut view = view_room();
    let mut line = line_room();
    let mut ledger = deployment.ledger;
    if !print_line(rt, 0, ledger, script.party, &mut view[..], &mut line[..]) {
        return;
    }
    for k in 0..script.calls {
        let called = call_at(bytes, k, ledger);
        ledger = called.ledger;
        if !print_line(
            rt,
            called.number,
            ledger,
            script.party,
            &mut view[..],
            &mut line[..],
        ) {
            return;
        }
    }
}

fn answer(rt: &HostRuntime, bytes: &[u8]) {
    if rehearse_scripts::is_script(bytes) {
        rehearse(rt, bytes);
    } else {
        print(rt, b"rehearse", b"bad script\n");
    }
}

// A function of its own, so that the large room is cleared for an input that fills the short one alone.
fn answer_long(rt: &HostRuntime, beginning: Beginning, start: &[u8]) {
    let mut bytes = script_room();
    let input = read_rest(rt, b"rehearse", beginning, start, &mut bytes);
    let length = input.length;
    if input.ready {
        answer(rt, &bytes[..length]);
    }
}

fn main(rt: HostRuntime) {
    let mut bytes = short_script_room();
    let beginning = begin_input(&rt, b"rehearse", 1, &mut bytes);
    let length = beginning.length;
    if beginning.full {
        answer_long(&rt, beginning, &bytes);
    } else if beginning.ready {
        answer(&rt, &bytes[..length]);
    }
}
