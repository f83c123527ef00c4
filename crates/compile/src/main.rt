// Reads a contract file and writes the rewritten file, byte for byte, or prints `refused` and its number. The first argument names the
// file to read in place of standard input, a second one the file to write in place of standard output.
#![tactic(auto)]

ghost use Rattle.std.specs.Prelude.{◌≡◌, ◌≤◌};
ghost use Rattle.kit.specs.Names.{length};
ghost use Rattle.definitions.specs.Numbers.{check_number};
ghost use Rattle.write_room.specs.Rooms.{Suffices};
ghost use Rattle.write_output.specs.Answers.{Promised};

use program_input::{Beginning, begin_input, contract_room, read_rest, short_contract_room};
use program_output::{deliver, print_refused};
use write_extents::{is_short_file, is_tiny};
use write_output::{Answer, short_written_room, tiny_written_room, written_room};

// In a room that suffices the file's own number alone can refuse: what is refused here `verdict` refuses too, with the same number.
fn rewrite(file: &[u8], out: &mut [u8]) -> Answer
    requires { Suffices file.now (length out.old) }
    ensures promised { Promised file.now out.old out.new result.number result.length
        result.counts.crossings }
    ensures number_value { result.number ≡ check_number file.now }
{
    write_contract::write(file, out)
}

fn answer_in(rt: &HostRuntime, file: &[u8], out: &mut [u8])
    requires { Suffices file.now (length out.old) }
{
    let answer = rewrite(file, out);
    let end = answer.length;
    if answer.number == 0 {
        deliver(rt, b"compile", &out[..end]);
    } else {
        print_refused(rt, b"compile", answer.number);
    }
}

// Functions of their own, so that the room that a short file needs is all that is cleared for it.
fn answer_tiny(rt: &HostRuntime, file: &[u8])
    requires { length file.now ≤ 112 }
{
    let mut out = tiny_written_room();
    answer_in(rt, file, &mut out);
}

fn answer_short(rt: &HostRuntime, file: &[u8])
    requires { length file.now ≤ 512 }
{
    let mut out = short_written_room();
    answer_in(rt, file, &mut out);
}

fn answer_any(rt: &HostRuntime, file: &[u8]) {
    let mut out = written_room();
    answer_in(rt, file, &mut out);
}

fn answer(rt: &HostRuntime, file: &[u8]) {
    if is_tiny(file.len()) {
        answer_tiny(rt, file);
    } else if is_short_file(file.len()) {
        answer_short(rt, file);
    } else {
        answer_any(rt, file);
    }
}

// So is the large room for the input, which only one that fills the short room needs.
fn answer_long(rt: &HostRuntime, beginning: Beginning, start: &[u8]) {
    let mut file = contract_room();
    let input = read_rest(rt, b"compile", beginning, start, &mut file);
    let length = input.length;
    if input.ready {
        answer(rt, &file[..length]);
    }
}

fn main(rt: HostRuntime) {
    let mut file = short_contract_room();
    let beginning = begin_input(&rt, b"compile", 2, &mut file);
    let length = beginning.length;
    if beginning.full {
        answer_long(&rt, beginning, &file);
    } else if beginning.ready {
        answer(&rt, &file[..length]);
    }
}
