// "16. The lent output is too short": the written file handed out where it fits.
#![tactic(auto)]

ghost use Rattle.std.specs.Prelude.{◌≡◌, ◌++◌, ◌≤◌};
ghost use Rattle.kit.specs.Names.{length};
ghost use Rattle.definitions.specs.Basics.{two_bytes};
ghost use Rattle.write_output.specs.Answers.{HandedOut, CountsOut};

use memory_append::{append, append_two_bytes};
use write_crossings::{Counts, no_counts};

// A number, 0 where the file is written; the written file's length, and what is counted of each function.
#[derive(Drop)]
pub struct Answer {
    pub number: u8,
    pub length: usize,
    pub counts: Counts,
}

// Room for whatever is written of an accepted file of at most 112 bytes, each of which makes at most 18; of one of at most 512 bytes, which
// has at most 64 nodes; and of any accepted file.
pub fn tiny_written_room() -> [u8; 2016]
    ensures { 2016 ≡ length result }
{
    [0; 2016]
}

pub fn short_written_room() -> [u8; 9172]
    ensures { 9172 ≡ length result }
{
    [0; 9172]
}

pub fn written_room() -> [u8; 37844]
    ensures { 37844 ≡ length result }
{
    [0; 37844]
}

// "16. The lent output is too short": else headings, count of nodes and nodes stand there, one behind another.
pub fn hand_out(
    headings: &[u8],
    nodes: &[u8],
    count: usize,
    counts: Counts,
    out: &mut [u8],
) -> Answer
    requires { (length headings.now ≤ 49152) × (length nodes.now ≤ 49152) }
    ensures handed_out { HandedOut (headings.now ++ two_bytes count ++ nodes.now) out.old out.new
        result.number result.length }
    ensures counts_out { CountsOut (headings.now ++ two_bytes count ++ nodes.now) out.old counts.crossings
        result.counts.crossings }
{
    let total = headings.len() + 2 + nodes.len();
    let none = no_counts();
    if out.len() < total {
        return Answer {
            number: 16,
            length: 0,
            counts: none,
        };
    }
    let middle = append(headings, out, 0);
    let next = append_two_bytes(count, out, middle);
    append(nodes, out, next);
    Answer {
        number: 0,
        length: total,
        counts,
    }
}
