// The ledger as code holds it, and its contents to flat numbers and back.
#![tactic(auto)]

ghost use Rattle.std.specs.Prelude.{◌≡◌, ◌*◌, ◌/◌, ◌≤◌};
ghost use Rattle.kit.specs.Names.{min, length};
ghost use Rattle.ledger_contents.specs.Contents.{contents_of};
ghost use Rattle.ledger_struct.specs.Ledgers.{ledger_of, contents_in, Flat};
ghost use Rattle.ledger_struct.specs.Whole.{places_for};

use ledger_contents::{Content, Place};

// The outcome of a call: "(0 done, 1 failed)".
pub const DONE: u8 = 0;

pub const FAILED: u8 = 1;

// "The ledger struct holds an array of place structs, by value." What stands behind a count means nothing (`ledger_of`), and is fixed
// all the same (`struct_of`, `laid_over`).
#[derive(Clone, Copy)]
pub struct Ledger {
    pub file: [u8; 4596],
    pub file_length: usize,
    pub call: u16,
    pub function: u8,
    pub caller: u8,
    pub outcome: u8,
    pub parameters: [Place; 8],
    pub parameter_count: usize,
    pub variables: [Place; 1024],
    pub variable_count: usize,
    pub places: [Place; 1024],
    pub place_count: usize,
}

// What a ledger says of its last call beside parameters and variables: the numbers that its view begins with.
#[derive(Clone, Copy)]
pub struct LastCall {
    pub call: u16,
    pub function: u8,
    pub caller: u8,
    pub outcome: u8,
}

// A count that is above the room counts the room.
pub fn at_most(count: usize, room: usize) -> usize
    ensures { result ≡ min count room }
{
    count.min(room)
}

// The contents of places as flat numbers.
pub fn flatten<const N: usize>(places: [Place; N], count: usize, flat: &mut [u32])
    requires { length flat.old ≡ 5 * min count N }
    ensures { contents_of flat.new ≡ contents_in count places.entry }
{
    for (i, place) in places[..count.min(N)].iter().enumerate() {
        ledger_contents::put_content(flat, i, place.content);
    }
}

// Places that hold the contents of flat numbers; those behind hold plain 0.
pub fn filled<const N: usize>(flat: &[u32]) -> [Place; N]
    requires { length flat.now / 5 ≤ N }
    ensures { result ≡ places_for N (contents_of flat.now) }
{
    let zero = Place {
        content: Content::Plain(0),
    };
    let mut places = [zero; N];
    for p in 0..flat.len() / 5 {
        places[p] = Place {
            content: ledger_contents::content_at(flat, p),
        };
    }
    places
}

// The contents of places at the front of a buffer with room for all of them. The answer is how many numbers they are.
fn flat_front<const N: usize>(places: [Place; N], count: usize, flat: &mut [u32]) -> usize
    requires { length flat.old ≡ 5 * N }
    ensures { Flat (contents_in count places.entry) flat.new N result }
{
    let size = 5 * count.min(N);
    flatten(places, count, &mut flat[..size]);
    size
}

// A ledger is taken apart: its contents become flat numbers at the front of a buffer. The answer is how many numbers they are.
pub fn flat_parameters(l: Ledger, flat: &mut [u32]) -> usize
    requires { length flat.old ≡ 40 }
    ensures { Flat (ledger_of l).parameters flat.new 8 result }
{
    flat_front(l.parameters, l.parameter_count, flat)
}

pub fn flat_variables(l: Ledger, flat: &mut [u32]) -> usize
    requires { length flat.old ≡ 5120 }
    ensures { Flat (ledger_of l).variables flat.new 1024 result }
{
    flat_front(l.variables, l.variable_count, flat)
}

pub fn flat_places(l: Ledger, flat: &mut [u32]) -> usize
    requires { length flat.old ≡ 5120 }
    ensures { Flat (ledger_of l).places flat.new 1024 result }
{
    flat_front(l.places, l.place_count, flat)
}
