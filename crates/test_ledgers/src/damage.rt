// Damaged ledgers. A contract, which is file A, is deployed with its final at address 5, and party 3 calls it with 7. The ledger is then
// damaged by hand, each kind of damage by itself, and a call and a view on it are asked for: they must be refused, 18 and 21, and taken
// where nothing is damaged.
ghost use Rattle.std.specs.Prelude.{◌≡◌, ◌<◌};
ghost use Rattle.kit.specs.Names.{set};
ghost use Rattle.test_ledgers.specs.Damage.{plain_place, cell_place, with_items, damaged_head, damaged_item, damaged_ledger};
ghost use Rattle.test_ledgers.specs.Damage.{is_answered, wrong_answers, WrongOn};

use call::call;
use deploy::deploy;
use ledger_contents::{Cell, Content, Place};
use ledger_struct::Ledger;
use view::view;

fn plain(value: u32) -> Place
    ensures { result ≡ plain_place value }
{
    Place {
        content: Content::Plain(value),
    }
}

fn cell(owner: u8, value: u32) -> Place
    ensures { result ≡ cell_place owner value }
{
    Place {
        content: Content::Cell(Cell {
            owner,
            call: 1,
            index: 0,
            value,
        }),
    }
}

// Its file, its length and the last call.
fn damaged_head(l: Ledger, kind: u8) -> Ledger
    ensures { result ≡ damaged_head kind l }
{
    let mut d = l;
    match kind {
        1 => {
            let mut bytes = d.file;
            bytes[0] = 65;
            d.file = bytes;
        }
        2 => d.file_length = 38,
        3 => d.call = 0,
        4 => d.function = 1,
        5 => d.caller = 16,
        6 => d.outcome = 1,
        7 => d.outcome = 2,
        8 => d.parameter_count = 0,
        9 => d.variable_count = 2,
        10 => d.place_count = 1,
        _ => d.caller = 4,
    }
    d
}

// With another first parameter, another variable, another place.
fn with_parameter(l: Ledger, item: Place) -> Ledger
    ensures { result ≡ with_items l (set l.parameters 0 item) l.variables l.places }
{
    let mut d = l;
    let mut parameters = d.parameters;
    parameters[0] = item;
    d.parameters = parameters;
    d
}

fn with_variable(l: Ledger, i: usize, item: Place) -> Ledger
    requires { i < 1024 }
    ensures { result ≡ with_items l l.parameters (set l.variables i item) l.places }
{
    let mut d = l;
    let mut variables = d.variables;
    variables[i] = item;
    d.variables = variables;
    d
}

fn with_place(l: Ledger, i: usize, item: Place) -> Ledger
    requires { i < 1024 }
    ensures { result ≡ with_items l l.parameters l.variables (set l.places i item) }
{
    let mut d = l;
    let mut places = d.places;
    places[i] = item;
    d.places = places;
    d
}

// An item: of another kind, of another owner, outside its type.
fn damaged_item(l: Ledger, kind: u8) -> Ledger
    ensures { result ≡ damaged_item kind l }
{
    match kind {
        12 => with_parameter(l, plain(7)),
        13 => with_parameter(l, cell(4, 7)),
        14 => with_variable(l, 1, plain(7)),
        15 => with_variable(l, 1, cell(3, 7)),
        16 => with_variable(l, 2, cell(5, 7)),
        17 => with_place(l, 0, plain(16)),
        18 => with_place(l, 0, cell(5, 5)),
        19 => with_place(l, 0, plain(6)),
        20 => with_place(l, 1, plain(7)),
        _ => with_place(l, 1, cell(3, 7)),
    }
}

fn damaged(l: Ledger, kind: u8) -> Ledger
    ensures { result ≡ damaged_ledger kind l }
{
    if kind == 0 {
        l
    } else if kind < 12 {
        damaged_head(l, kind)
    } else {
        damaged_item(l, kind)
    }
}

// Whether a call and a view of the ledger give these numbers.
fn answers(l: Ledger, call_number: u8, view_number: u8) -> bool
    ensures { result ≡ is_answered l call_number view_number }
{
    let arguments = [7u32; 1];
    let called = call(l, 0, 3, &arguments[..]);
    let mut out = [0u8; 1024];
    let seen = view(l, 3, &mut out[..]);
    called.number == call_number && seen.number == view_number
}

fn wrong_answers(l: Ledger) -> usize
    ensures { result ≡ wrong_answers l }
{
    let mut wrong: usize = 0;
    if !answers(l, 0, 0) {
        wrong += 1;
    }
    for kind in 1..22 {
        if !answers(damaged(l, kind), 18, 21) {
            wrong += 1;
        }
    }
    wrong
}

// How many of the answers on the contract's ledger, whole and damaged, are wrong.
pub fn wrong(file: &[u8]) -> usize
    ensures { WrongOn file.now result }
{
    let addresses = [5u8; 1];
    let deployed = deploy(file, &addresses[..]);
    let arguments = [7u32; 1];
    let called = call(deployed.ledger, 0, 3, &arguments[..]);
    wrong_answers(called.ledger)
}
