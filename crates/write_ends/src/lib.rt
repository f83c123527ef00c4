// The end of a statement's or a condition's events in a log.
#![tactic(auto)]

ghost use Rattle.std.specs.Prelude.{◌≤◌};
ghost use Rattle.kit.specs.Names.{length};
ghost use Rattle.write_ends.specs.Ends.{EndFound};

use rewrite_log::{END_LOGGED, Position};

// The place behind the next end of a log from a place on, and the number of the variable that is next there.
pub fn find_end(log: &[u16], from: usize) -> Position
    requires { from ≤ length log.now }
    ensures { EndFound log.now from result }
{
    let (entries, _) = log[from..].as_chunks::<5>();
    match entries.iter().position(|entry| entry[0] == END_LOGGED) {
        Some(i) => Position {
            at: from + 5 * i + 5,
            variable: entries[i][1] as usize,
        },
        None => Position {
            at: from + 5 * entries.len(),
            variable: 0,
        },
    }
}
