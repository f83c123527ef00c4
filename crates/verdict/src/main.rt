// Reads a contract file and prints `accepted`, or `refused` and its number. It is the file that the one argument names, or standard
// input.
#![tactic(auto)]

use program_input::{Beginning, begin_input, contract_room, read_rest, short_contract_room};
use program_output::{print, print_refused};

fn answer(rt: &HostRuntime, file: &[u8]) {
    let number = check_contract::check(file);
    if number == 0 {
        print(rt, b"verdict", b"accepted\n");
    } else {
        print_refused(rt, b"verdict", number);
    }
}

// A function of its own, so that the large room is cleared for an input that fills the short one alone.
fn answer_long(rt: &HostRuntime, beginning: Beginning, start: &[u8]) {
    let mut file = contract_room();
    let input = read_rest(rt, b"verdict", beginning, start, &mut file);
    let length = input.length;
    if input.ready {
        answer(rt, &file[..length]);
    }
}

fn main(rt: HostRuntime) {
    let mut file = short_contract_room();
    let beginning = begin_input(&rt, b"verdict", 1, &mut file);
    let length = beginning.length;
    if beginning.full {
        answer_long(&rt, beginning, &file);
    } else if beginning.ready {
        answer(&rt, &file[..length]);
    }
}
