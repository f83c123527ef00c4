// Recorded runs, with what is told to their party: the number of every call and every value that it discloses are compared with what is
// recorded. A record is one of the module `recorded`, with behind each call's number: count of the values that it discloses to the party
// (2), each value (4).
ghost use Rattle.std.specs.Prelude.{◌≡◌, ◌+◌, ◌*◌, ◌-◌, ◌<◌, ◌≤◌};
ghost use Rattle.kit.specs.Names.{length};

use crate::recorded::{Run, begun, called, read_call};
use file_bytes::{byte_at, two_bytes_at};
use rehearse_scripts::four_bytes_at;
use test_shared::part;

// Whether some values are those that stand from a place on.
fn are_values(input: &[u8], from: usize, count: usize, values: &[u32]) -> bool
    requires { (from ≤ 100000000) × (length values.now ≤ 512) }
{
    if values.len() != count {
        return false;
    }
    for (i, value) in values.iter().enumerate() {
        if *value != four_bytes_at(input, from + 4 * i) {
            return false;
        }
    }
    true
}

fn value_room() -> [u32; 512]
    ensures { 512 ≡ length result }
{
    [0; 512]
}

// Whether a call discloses, on the ledger before it, what is recorded behind its number: the count of the values, and the values.
fn is_told(bytes: &[u8], before: Run) -> bool
    requires { before.place ≤ 91000000 }
{
    let rest = part(bytes, before.place, bytes.len());
    let recorded = read_call(rest);
    let given = recorded.arguments;
    let count = recorded.count;
    let ledger = before.ledger;
    let mut values = value_room();
    let answer = disclose_call::disclosed(
        ledger,
        recorded.function,
        recorded.caller,
        &given[..count],
        before.party,
        &mut values,
    );
    let length = ledger_struct::at_most(answer.length, 512);
    let due = two_bytes_at(rest, recorded.end + 1);
    let same = are_values(rest, recorded.end + 3, due, &values[..length]);
    same && answer.number as usize == byte_at(rest, recorded.end)
}

// The run after a call and the values that are recorded behind it.
fn told(bytes: &[u8], before: Run) -> Run
    requires { (before.place ≤ 91000000) × (0 < before.left) }
    ensures { ((before.place ≤ result.place) × (result.place ≤ before.place + 270000)) × (result.left ≡ before.left - 1) }
{
    let same = is_told(bytes, before);
    let after = called(bytes, before);
    let ledger = after.ledger;
    Run {
        place: after.place + 2 + 4 * two_bytes_at(bytes, after.place),
        left: after.left,
        party: after.party,
        same: same && after.same,
        ledger,
    }
}

pub fn run(bytes: &[u8]) -> Run
    ensures { (0 < result.place) × (result.place ≤ 80000000) }
{
    let mut run = begun(bytes);
    for _ in 0..run.left {
        run = told(bytes, run);
    }
    run
}
