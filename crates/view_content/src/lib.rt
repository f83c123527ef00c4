// A content as an item of a party's view: plain, opaque or opened.
#![tactic(auto)]

ghost use Rattle.std.specs.Prelude.{◌≡◌, ◌+◌, ◌≤◌};
ghost use Rattle.kit.specs.Names.{length};
ghost use Rattle.memory_buffer.specs.Buffer.{stored};
ghost use Rattle.definitions.specs.View.{item_bytes, item_for};
ghost use Rattle.ledger_contents.specs.Contents.{content_of_code};

use ledger_contents::{Cell, Content};
use view_item::{OPAQUE_ITEM, OPENED_ITEM, PLAIN_ITEM, put_item};

// A cell that is not the party's shows no value.
pub fn put_cell(out: &mut [u8], at: usize, party: u8, cell: Cell)
    requires { at + 10 ≤ length out.old }
    ensures { out.new ≡ stored out.old at (item_bytes (item_for party (content_of_code (Content.Cell cell)))) }
{
    if cell.owner == party {
        put_item(out, at, OPENED_ITEM, cell)
    } else {
        let mut hidden = cell;
        hidden.value = 0;
        put_item(out, at, OPAQUE_ITEM, hidden)
    }
}

// The item that a content is for a party.
pub fn put_content(out: &mut [u8], at: usize, party: u8, content: Content)
    requires { at + 10 ≤ length out.old }
    ensures { out.new ≡ stored out.old at (item_bytes (item_for party (content_of_code content))) }
{
    match content {
        Content::Plain(value) => put_item(
            out,
            at,
            PLAIN_ITEM,
            Cell {
                owner: 0,
                call: 0,
                index: 0,
                value,
            },
        ),
        Content::Cell(cell) => put_cell(out, at, party, cell),
    }
}
