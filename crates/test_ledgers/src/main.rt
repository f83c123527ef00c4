// Compares our entries on ledgers with recorded answers. They stand in the files that the three arguments name, in this order: runs,
// disclosures, the contract whose ledger is damaged. For each file one line is printed: how many there were, and how many of them differ.
#![tactic(auto)]

mod damage;
mod disclosures;
mod recorded;
mod runs;

ghost use Rattle.std.specs.Prelude.{◌<◌, ◌≤◌};
ghost use Rattle.kit.specs.Names.{length};

use recorded::{Run, Tally, counted, no_runs};
use test_shared::{part, print};

fn print_runs(rt: &HostRuntime, tally: Tally) -> usize {
    print(
        rt,
        b"test_ledgers",
        tally.runs,
        b" runs, ",
        tally.different,
        b" different\n",
    )
}

fn print_damage(rt: &HostRuntime, wrong: usize) -> usize {
    print(
        rt,
        b"test_ledgers",
        21,
        b" kinds of damage, ",
        wrong,
        b" answered wrongly\n",
    )
}

// The run with which some bytes begin, held against what its party sees, or against what is told to it.
fn run(place: usize, bytes: &[u8]) -> Run
    ensures { (0 < result.place) × (result.place ≤ 80000000) }
{
    if place == 1 {
        runs::run(bytes)
    } else {
        disclosures::run(bytes)
    }
}

fn compare_runs(place: usize, input: &[u8]) -> Tally
    requires { length input.now ≤ 700000 }
{
    let mut tally = no_runs();
    // Kept: each turn goes on by the length that its record has, until the input ends.
    while tally.place < input.len() {
        let rest = part(input, tally.place, input.len());
        tally = counted(tally, run(place, rest), rest.len());
    }
    tally
}

// What the argument at a place names is compared, and the line printed.
fn compare(rt: &HostRuntime, place: usize, input: &[u8]) -> usize
    requires { length input.now ≤ 700000 }
{
    if place == 3 {
        print_damage(rt, damage::wrong(input))
    } else {
        print_runs(rt, compare_runs(place, input))
    }
}

// A file that cannot be read has no line.
fn main(rt: HostRuntime) {
    let mut input = test_shared::input_room();
    for place in 1..=3 {
        let read = test_shared::read_named(&rt, b"test_ledgers", place, &mut input);
        let length = read.length;
        if read.ready {
            compare(&rt, place, &input[..length]);
        }
    }
}
