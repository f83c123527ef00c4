// Compares our entries and programs with recorded answers. They stand in the files that the four arguments name, in this order: contract
// files, with their numbers, written files and reports; inputs of the programs with what they print, those recorded for document 02's
// Notes 1, 2 and 3. For each file one line is printed: how many records there were, and how many of them differ.
#![tactic(auto)]

mod files;
mod programs;

ghost use Rattle.std.specs.Prelude.{◌≤◌};
ghost use Rattle.kit.specs.Names.{length};

use test_shared::Tally;

// The records of the file that the argument at a place names.
fn compare(place: usize, input: &[u8], out: &mut [u8]) -> Tally
    requires { (length input.now ≤ 700000) × (49152 ≤ length out.old) }
{
    if place == 1 {
        files::compare(input, out)
    } else {
        programs::compare(input, out)
    }
}

fn print(rt: &HostRuntime, tally: Tally) -> usize {
    test_shared::print(
        rt,
        b"test_programs",
        tally.records,
        b" records, ",
        tally.different,
        b" different\n",
    )
}

// A file that cannot be read has no line.
fn main(rt: HostRuntime) {
    let mut input = test_shared::input_room();
    let mut out = test_shared::output_room();
    for place in 1..=4 {
        let read = test_shared::read_named(&rt, b"test_programs", place, &mut input);
        let length = read.length;
        if read.ready {
            print(&rt, compare(place, &input[..length], &mut out));
        }
    }
}
