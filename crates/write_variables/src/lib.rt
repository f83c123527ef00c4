// 01, Rewriting: a function's variables and keys, written from its log.
#![tactic(auto)]

ghost use Rattle.std.specs.Prelude.{◌≡◌, ◌∷◌, ◌+◌, ◌≤◌};
ghost use Rattle.kit.specs.Names.{[], length};
ghost use Rattle.memory_append.specs.Append.{Appended};
ghost use Rattle.write_variables.specs.PerEntry.{per_entry, count_tag};
ghost use Rattle.write_variables.specs.Variables.{origin_of, variable_of, key_code, once_unseen, seen_in, KeysTaken};
ghost use Rattle.definitions.specs.Rewriting.{each_once};

use file_kinds::EVERYONE_CODE_SHORT;
use memory_append::append_byte;
use rewrite_log::{READ_LOGGED, SUPPLIED_LOGGED, makes_none};

// "Origins: 0 supplied plain, 1 supplied cell, 2 read plain, 3 read cell, 4 guard."
pub const SUPPLIED_PLAIN: u8 = 0;

pub const SUPPLIED_CELL: u8 = 1;

pub const READ_PLAIN: u8 = 2;

pub const READ_CELL: u8 = 3;

pub const GUARD: u8 = 4;

// How many entries of a log have a tag.
pub fn count_tag(log: &[u16], tag: u16) -> usize
    ensures { result ≡ count_tag tag log.now }
{
    let (entries, _) = log.as_chunks::<5>();
    entries.iter().filter(|entry| entry[0] == tag).count()
}

// The origin of the variable that an entry makes.
fn origin_of(tag: u16, owner: u16) -> u8
    ensures { result ≡ origin_of tag owner }
{
    if tag == SUPPLIED_LOGGED {
        if owner == EVERYONE_CODE_SHORT {
            SUPPLIED_PLAIN
        } else {
            SUPPLIED_CELL
        }
    } else if tag == READ_LOGGED {
        if owner == EVERYONE_CODE_SHORT {
            READ_PLAIN
        } else {
            READ_CELL
        }
    } else {
        GUARD
    }
}

// The variable that an entry makes, if any: "each origin and owner code".
fn append_variable(tag: u16, owner: u16, out: &mut [u8], at: usize) -> usize
    requires { at + length (variable_of tag 0 owner 0 0) ≤ length out.old }
    ensures { Appended out.old out.new at (variable_of tag 0 owner 0 0) result }
{
    if makes_none(tag) {
        at
    } else {
        let next = append_byte(origin_of(tag, owner), out, at);
        append_byte((owner % 256) as u8, out, next)
    }
}

// The variables of a log.
pub fn append_variables(log: &[u16], out: &mut [u8], from: usize) -> usize
    requires { from + length (per_entry variable_of log.now) ≤ length out.old }
    ensures { Appended out.old out.new from (per_entry variable_of log.now) result }
{
    let (entries, _) = log.as_chunks::<5>();
    let mut at = from;
    for entry in entries {
        at = append_variable(entry[0], entry[2], out, at);
    }
    at
}

// A code that needs a key is appended where the table has not seen it.
fn append_code(code: u8, table: &mut [u8], out: &mut [u8], at: usize) -> usize
    requires { (length table.old ≡ 256) × (at + length (once_unseen (seen_in table.old) (code ∷ [])) ≤ length out.old) }
    ensures { KeysTaken table.old table.new (code ∷ []) out.old out.new at result }
{
    let i = code as usize;
    if table[i] == 1 {
        at
    } else {
        table[i] = 1;
        append_byte(code, out, at)
    }
}

// An entry's key: a supplied cell has one.
fn append_key(tag: u16, owner: u16, table: &mut [u8], out: &mut [u8], at: usize) -> usize
    requires { (length table.old ≡ 256)
        × (at + length (once_unseen (seen_in table.old) (key_code tag 0 owner 0 0)) ≤ length out.old) }
    ensures { KeysTaken table.old table.new (key_code tag 0 owner 0 0)
        out.old out.new at result }
{
    if tag == SUPPLIED_LOGGED {
        if owner == EVERYONE_CODE_SHORT {
            at
        } else {
            append_code((owner % 256) as u8, table, out, at)
        }
    } else {
        at
    }
}

// "owner codes needing keys (those of supplied cells), each once by first use"
pub fn append_keys(log: &[u16], out: &mut [u8], from: usize) -> usize
    requires { from + length (each_once [] (per_entry key_code log.now)) ≤ length out.old }
    ensures { Appended out.old out.new from (each_once [] (per_entry key_code log.now)) result }
{
    let (entries, _) = log.as_chunks::<5>();
    let mut table: [u8; 256] = [0; 256];
    let mut at = from;
    for entry in entries {
        at = append_key(entry[0], entry[2], &mut table, out, at);
    }
    at
}
