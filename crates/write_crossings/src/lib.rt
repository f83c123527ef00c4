// 02, Note 2: "each function's count of variables with origins 0 to 3", from the log that its variables are written from.
#![tactic(auto)]

ghost use Rattle.std.specs.Prelude.{◌≡◌, ◌+◌, ◌<◌, ◌≤◌};
ghost use Rattle.kit.specs.Names.{[], length, set};
ghost use Rattle.definitions.specs.Crossings.{sixteen};
ghost use Rattle.write_variables.specs.PerEntry.{count_tag};

use rewrite_log::{READ_LOGGED, SUPPLIED_LOGGED};
use write_variables::count_tag;

// What is counted of each function, as many as there can be; 0 for one that is not there.
#[derive(Drop)]
pub struct Counts {
    pub crossings: [u16; 16],
}

// "a refusal, or a function that isn't there, has 0"
pub fn no_counts() -> Counts
    ensures { result.crossings ≡ sixteen [] }
{
    Counts { crossings: [0; 16] }
}

// The reads of the private parameters, and the log's entries that make a variable of an origin below 4: supplied and read ones.
pub fn count_crossings(private: usize, log: &[u16]) -> u16
    requires { (private ≤ 1024) × (length log.now ≤ 5120) }
    ensures { result ≡ private + (count_tag 0 log.now + count_tag 2 log.now) }
{
    let made = count_tag(log, SUPPLIED_LOGGED) + count_tag(log, READ_LOGGED);
    (private + made) as u16
}

// The counts with that of one function more.
pub fn with_crossings(counts: Counts, function: usize, crossings: u16) -> Counts
    requires { function < 16 }
    ensures { result.crossings ≡ set counts.crossings function crossings }
{
    let mut next = counts;
    next.crossings[function] = crossings;
    next
}
