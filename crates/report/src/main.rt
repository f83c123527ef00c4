// Reads a contract file and prints its report: each function's crossings and their total, or `refused` and the file's number. It is the
// file that the one argument names, or standard input.
#![tactic(auto)]

ghost use Rattle.std.specs.Prelude.{◌≡◌};
ghost use Rattle.kit.specs.Names.{length};

use program_input::{Beginning, begin_input, contract_room, read_rest, short_contract_room};
use program_output::{print, print_refused};

// Room for the longest report.
fn text_room() -> [u8; 131]
    ensures { 131 ≡ length result }
{
    [0; 131]
}

fn answer(rt: &HostRuntime, file: &[u8]) {
    let mut text = text_room();
    let answer = report_contract::report(file, &mut text);
    let end = answer.length;
    if answer.number == 0 {
        print(rt, b"report", &text[..end]);
    } else {
        print_refused(rt, b"report", answer.number);
    }
}

// A function of its own, so that the large room is cleared for an input that fills the short one alone.
fn answer_long(rt: &HostRuntime, beginning: Beginning, start: &[u8]) {
    let mut file = contract_room();
    let input = read_rest(rt, b"report", beginning, start, &mut file);
    let length = input.length;
    if input.ready {
        answer(rt, &file[..length]);
    }
}

fn main(rt: HostRuntime) {
    let mut file = short_contract_room();
    let beginning = begin_input(&rt, b"report", 1, &mut file);
    let length = beginning.length;
    if beginning.full {
        answer_long(&rt, beginning, &file);
    } else if beginning.ready {
        answer(&rt, &file[..length]);
    }
}
