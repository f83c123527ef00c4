// 01, Runs and views: a content against a value, an address, the caller.
#![tactic(auto)]

ghost use Rattle.std.specs.Prelude.{◌≡◌, ◌&&◌};
ghost use Rattle.kit.specs.Names.{eqb};
ghost use Rattle.definitions.specs.Original.{anyone, only};
ghost use Rattle.definitions.specs.Ledger.{is_content_of, opens_for};
ghost use Rattle.ledger_contents.specs.Contents.{content_of_code};

use ledger_contents::{Cell, Content};

// A plain content of this value.
pub fn is_plain(content: Content, value: u32) -> bool
    ensures { result ≡ is_content_of anyone value (content_of_code content) }
{
    match content {
        Content::Plain(number) => number == value,
        Content::Cell(_) => false,
    }
}

// A cell that this address owns, of this value.
pub fn cell_matches(cell: Cell, address: u32, value: u32) -> bool
    ensures { result ≡ eqb cell.owner address && eqb cell.value value }
{
    if cell.owner as u32 == address {
        cell.value == value
    } else {
        false
    }
}

// A content that is such a cell.
pub fn is_cell_of(content: Content, address: u32, value: u32) -> bool
    ensures { result ≡ is_content_of (only address) value (content_of_code content) }
{
    match content {
        Content::Plain(_) => false,
        Content::Cell(cell) => cell_matches(cell, address, value),
    }
}

// A content that is a cell of this address.
pub fn opens_for(content: Content, address: u32) -> bool
    ensures { result ≡ opens_for address (content_of_code content) }
{
    match content {
        Content::Plain(_) => false,
        Content::Cell(cell) => cell.owner as u32 == address,
    }
}
