// 01, Runs and views: "An honest supplied variable holds what the original works out for its expression, as a cell of its owner if a cell".
#![tactic(auto)]

ghost use Rattle.std.specs.Prelude.{◌≡◌, ◌≤◌};
ghost use Rattle.kit.specs.Names.{get_or};
ghost use Rattle.definitions.specs.ContractFile.{owner_of_code};
ghost use Rattle.definitions.specs.Original.{reader_of};
ghost use Rattle.file_accepted.specs.Functions.{root_at};
ghost use Rattle.ledger_contents.specs.Contents.{contents_of, content_of_code};
ghost use Rattle.ledger_readers.specs.Readers.{reader_of_code};
ghost use Rattle.ledger_circuits.specs.Circuits.{address_from};
ghost use Rattle.honest_variables.specs.Slots.{SlotsRoom, SlotsPut};
ghost use Rattle.honest_variables.specs.Variables.{codes_of, content_of_slot, contents_of_codes, VariablesRoom, AddressPlace, SlotReady};
ghost use Rattle.honest_variables.specs.Variables.{EntryReady, EntryPut};

use file_accepted::CheckedFunction;
use file_bytes::{byte_at, function_end, two_bytes_at};
use file_kinds::*;
use honest_statements::statement_slots;
use honest_supplies::Turn;
use ledger_contents::{Content, put_content};
use ledger_places::number_at;
use ledger_readers::{Reader, content_for};
use rewrite_log::{READ_LOGGED, makes_none};
use write_parameters::count_private;

// The root of the function that begins at a place.
pub fn root_at(file: &[u8], function_at: usize) -> usize
    requires { function_at ≤ 200000 }
    ensures { result ≡ root_at file.now function_at }
{
    two_bytes_at(file, function_end(file, function_at) - 2)
}

// One number a variable of a call: the reads of private parameters, then the body. The places' numbers are used up.
pub fn honest_slots(
    function: &CheckedFunction,
    numbers: &mut [u32],
    arguments: &[u32],
    caller: u8,
    slots: &mut [u64],
) -> usize
    requires { SlotsRoom function.now.file.now function.now.at slots.old }
    ensures { SlotsPut function.now.file.now function.now.at arguments.now caller numbers.old
        slots.old slots.new result }
{
    let count = byte_at(function.file, function.at);
    let private = count_private(function.file, function.at + 1, count);
    slots[..private].fill(0);
    let root = root_at(function.file, function.at);
    let turn = Turn { caller, live: true };
    statement_slots(function, numbers, arguments, turn, root, slots, private)
}

// Where the address of a name's code stands.
fn address_place(code: usize) -> usize
    requires { code ≡ 0 → ⊥ }
    ensures { AddressPlace code result }
{
    if code == CALLER_CODE {
        return CALLER_CODE;
    }
    if code < FINAL_CODES {
        return PARAMETER_CODES;
    }
    if code < FINAL_CODES_END {
        return code;
    }
    if code < PARAMETER_CODES {
        return PARAMETER_CODES;
    }
    code
}

fn reader_of(addresses: &[u32], code: usize) -> Reader
    ensures { reader_of_code result ≡ reader_of (address_from addresses.now) (owner_of_code code) }
{
    if code == EVERYONE_CODE {
        Reader::Anyone
    } else {
        let place = address_place(code);
        Reader::Only(number_at(addresses, place))
    }
}

// "A supplied cell's serial is the call and 8 + variable"
fn content_of_slot(slot: u64, code: usize, addresses: &[u32], call: u16, n: usize) -> Content
    requires { SlotReady slot code addresses.now n }
    ensures { content_of_code result ≡ content_of_slot (address_from addresses.now) call n (owner_of_code code) slot }
{
    if slot == 0 {
        Content::Plain(0)
    } else {
        let reader = reader_of(addresses, code);
        content_for(reader, call, (8 + n) as u16, (slot - 1) as u32)
    }
}

fn slot_at(slots: &[u64], n: usize) -> u64
    ensures { result ≡ get_or slots.now n 0 }
{
    slots.get(n).copied().unwrap_or(0)
}

// The variable that an entry makes, if any.
fn put_entry(
    tag: u16,
    code: u16,
    slots: &[u64],
    addresses: &[u32],
    call: u16,
    flat: &mut [u32],
    n: usize,
) -> usize
    requires { EntryReady tag code slots.now addresses.now n }
    ensures { EntryPut call slots.now addresses.now tag code
        flat.old flat.new n result }
{
    if makes_none(tag) {
        n
    } else {
        let slot = slot_at(slots, n);
        let content = content_of_slot(slot, code as usize, addresses, call, n);
        put_content(flat, n, content);
        n + 1
    }
}

// The contents of all variables: the reads of private parameters, then those of the body's log.
pub fn put_variables(
    log: &[u16],
    private: usize,
    slots: &[u64],
    addresses: &[u32],
    call: u16,
    flat: &mut [u32],
)
    requires { VariablesRoom log.now private slots.now addresses.now flat.old }
    ensures { contents_of flat.new
        ≡ contents_of_codes (address_from addresses.now) call 0 (codes_of private log.now) slots.now }
{
    let mut n = 0;
    for _ in 0..private {
        n = put_entry(
            READ_LOGGED,
            CALLER_CODE_SHORT,
            slots,
            addresses,
            call,
            flat,
            n,
        );
    }
    for e in 0..log.len() / 5 {
        n = put_entry(log[5 * e], log[5 * e + 2], slots, addresses, call, flat, n);
    }
}
