// One item of a view, ten bytes, written over a lent output.
#![tactic(auto)]

ghost use Rattle.std.specs.Prelude.{◌≡◌, ◌+◌, ◌≤◌};
ghost use Rattle.kit.specs.Names.{length};
ghost use Rattle.memory_buffer.specs.Buffer.{stored};
ghost use Rattle.definitions.specs.View.{item_bytes};
ghost use Rattle.view_item.specs.Items.{item_of};

use ledger_contents::Cell;

// "Mark 0 plain has zero owner and serial; 1 opaque has value 0; 2 is a cell of the viewing party."
pub const PLAIN_ITEM: u8 = 0;

pub const OPAQUE_ITEM: u8 = 1;

pub const OPENED_ITEM: u8 = 2;

// Mark, owner, serial and value.
pub fn put_item(out: &mut [u8], at: usize, mark: u8, cell: Cell)
    requires { at + 10 ≤ length out.old }
    ensures { out.new ≡ stored out.old at (item_bytes (item_of mark cell)) }
{
    let call = cell.call;
    let index = cell.index;
    let value = cell.value;
    out[at] = mark;
    out[at + 1] = cell.owner;
    out[at + 2] = (call % 256) as u8;
    out[at + 3] = (call / 256 % 256) as u8;
    out[at + 4] = (index % 256) as u8;
    out[at + 5] = (index / 256 % 256) as u8;
    out[at + 6] = (value % 256) as u8;
    out[at + 7] = (value / 256 % 256) as u8;
    out[at + 8] = (value / 65536 % 256) as u8;
    out[at + 9] = (value / 16777216 % 256) as u8;
}
