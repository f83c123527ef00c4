// A log of events, five numbers each.
#![tactic(auto)]

ghost use Rattle.std.specs.Prelude.{◌≡◌, ◌+◌, ◌≤◌};
ghost use Rattle.kit.specs.Names.{length};
ghost use Rattle.memory_buffer.specs.Buffer.{stored};
ghost use Rattle.rewrite_log.specs.Entries.{makes_none};
ghost use Rattle.rewrite_log.specs.Logs.{numbers_of, SmallEntry, Slot, Wrote};

use memory_buffer::put_number;

// Where the next entry of a log goes, and the number of the next variable.
#[derive(Clone, Copy)]
pub struct Position {
    pub at: usize,
    pub variable: usize,
}

// The tags of entries: a supplied variable, its claim, a read variable, a guard, the end of a statement's or a condition's entries.
pub const SUPPLIED_EVENT: usize = 0;

pub const CLAIM_EVENT: usize = 1;

pub const READ_EVENT: usize = 2;

pub const GUARD_EVENT: usize = 3;

pub const END_EVENT: usize = 4;

// The tags as the numbers that a log holds.
pub const SUPPLIED_LOGGED: u16 = SUPPLIED_EVENT as u16;

pub const CLAIM_LOGGED: u16 = CLAIM_EVENT as u16;

pub const READ_LOGGED: u16 = READ_EVENT as u16;

pub const GUARD_LOGGED: u16 = GUARD_EVENT as u16;

pub const END_LOGGED: u16 = END_EVENT as u16;

// `last` is the number of a claim's guard, or the first variable of what is read.
#[derive(Clone, Copy)]
pub struct Entry {
    pub tag: usize,
    pub variable: usize,
    pub owner: usize,
    pub node: usize,
    pub last: usize,
}

// Whether an entry makes no variable: a claim, or an end.
pub fn makes_none(tag: u16) -> bool
    ensures { result ≡ makes_none tag }
{
    tag == CLAIM_LOGGED || tag == END_LOGGED
}

fn put_entry(log: &mut [u16], at: usize, entry: Entry)
    requires { (at + 5 ≤ length log.old) × (SmallEntry entry) }
    ensures { log.new ≡ stored log.old at (numbers_of entry) }
{
    put_number(log, at, entry.tag as u16);
    put_number(log, at + 1, entry.variable as u16);
    put_number(log, at + 2, entry.owner as u16);
    put_number(log, at + 3, entry.node as u16);
    put_number(log, at + 4, entry.last as u16);
}

// One entry, which makes 0 or 1 variables.
pub fn log_entry(log: &mut [u16], p: Position, entry: Entry, made: usize) -> Position
    requires { (Slot log.old p made) × (SmallEntry entry) }
    ensures { Wrote log.old log.new p result (numbers_of entry) made }
{
    let at = p.at;
    put_entry(log, at, entry);
    Position {
        at: at + 5,
        variable: p.variable + made,
    }
}
