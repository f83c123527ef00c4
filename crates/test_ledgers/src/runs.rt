// Recorded runs, with what their party sees: every number and every byte of every view is compared with what is recorded. A record is one
// of the module `recorded`, with behind its count of calls, and behind each call's number: length of the view that follows (2), that view.
ghost use Rattle.std.specs.Prelude.{◌≡◌, ◌+◌, ◌<◌, ◌≤◌};

use crate::recorded::{Run, begun, called};
use file_bytes::two_bytes_at;
use ledger_struct::Ledger;
use test_shared::{part, same_bytes, view_room};

fn view_is(ledger: Ledger, party: u8, due: &[u8]) -> bool {
    let mut view = view_room();
    let answer = view::view(ledger, party, &mut view);
    let length = ledger_struct::at_most(answer.length, 20565);
    same_bytes(&view[..length], due)
}

// The run behind the view that is recorded at its place.
fn viewed(bytes: &[u8], run: Run) -> Run
    requires { run.place ≤ 92000000 }
    ensures { ((run.place ≤ result.place) × (result.place ≤ run.place + 65537)) × (result.left ≡ run.left) }
{
    let start = run.place + 2;
    let end = start + two_bytes_at(bytes, run.place);
    let ledger = run.ledger;
    let same = view_is(ledger, run.party, part(bytes, start, end));
    Run {
        place: end,
        left: run.left,
        party: run.party,
        same: run.same && same,
        ledger,
    }
}

pub fn run(bytes: &[u8]) -> Run
    ensures { (0 < result.place) × (result.place ≤ 80000000) }
{
    let mut run = viewed(bytes, begun(bytes));
    for _ in 0..run.left {
        run = viewed(bytes, called(bytes, run));
    }
    run
}
