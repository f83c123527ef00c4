// Who can read a value, the content that a value is for its readers, and whether a content is what a form asks.
#![tactic(auto)]

ghost use Rattle.std.specs.Prelude.{◌≡◌, ◌-◌, ◌<◌, ◌≤◌};
ghost use Rattle.definitions.specs.Ledger.{content_for, fits};
ghost use Rattle.definitions.specs.ContractFile.{is_of_type, field_at, field_count, data_type_of};
ghost use Rattle.definitions.specs.Original.{place_reader, final_address};
ghost use Rattle.file_accepted.specs.Context.{fields_in};
ghost use Rattle.ledger_contents.specs.Contents.{content_of_code};
ghost use Rattle.ledger_readers.specs.Readers.{reader_of_code, form_of, is_content, Short};

use file_kinds::*;
use ledger_contents::{Cell, Content};

// All, or the party at one address.
#[derive(Clone, Copy)]
pub enum Reader {
    Anyone,
    Only(u32),
}

// A value for its readers: plain for all, or a cell with a serial.
pub fn content_for(reader: Reader, call: u16, index: u16, value: u32) -> Content
    requires { Short reader }
    ensures { content_of_code result ≡ content_for (reader_of_code reader) call index value }
{
    match reader {
        Reader::Anyone => Content::Plain(value),
        Reader::Only(address) => Content::Cell(Cell {
            owner: address as u8,
            call,
            index,
            value,
        }),
    }
}

// A type's values: bool 0 or 1, uint any, address 0 to 15.
fn is_of_type(code: usize, value: u32) -> bool
    ensures { result ≡ is_of_type (data_type_of code) value }
{
    if code == BOOL {
        return value < 2;
    }
    if code == UINT {
        return true;
    }
    value < 16
}

// Plain for all, or a cell of the reader's address.
fn is_content(reader: Reader, content: Content) -> bool
    ensures { result ≡ is_content (reader_of_code reader) (content_of_code content) }
{
    match reader {
        Reader::Anyone => match content {
            Content::Plain(_) => true,
            Content::Cell(_) => false,
        },
        Reader::Only(address) => match content {
            Content::Plain(_) => false,
            Content::Cell(cell) => cell.owner as u32 == address,
        },
    }
}

// The content has the form's type, and is plain or a cell as the form asks.
pub fn fits(code: usize, reader: Reader, content: Content) -> bool
    ensures { result ≡ fits (form_of code reader) (content_of_code content) }
{
    if is_content(reader, content) {
        let value = ledger_contents::opened_number(content);
        is_of_type(code, value)
    } else {
        false
    }
}

// The final that an owner code names.
fn final_of(code: usize) -> usize
    ensures { result ≡ code - 16 }
{
    if FINAL_CODES < code {
        code - FINAL_CODES
    } else {
        0
    }
}

// The reader of field f's place at a key, where the places hold these numbers.
pub fn place_reader(file: &[u8], f: usize, key: u32, numbers: &[u32]) -> Reader
    requires { (f < field_count file.now) × (field_count file.now ≤ 64) }
    ensures { reader_of_code result ≡ place_reader (final_address (fields_in file.now) numbers.now)
        (field_at (fields_in file.now) f).owner key }
{
    let owner = file_bytes::byte_at(file, 1 + 3 * f + 2);
    if owner == EVERYONE_CODE {
        return Reader::Anyone;
    }
    if owner == KEY_CODE {
        return Reader::Only(key);
    }
    let p = ledger_places::position(file, final_of(owner), 0);
    Reader::Only(ledger_places::number_at(numbers, p))
}
