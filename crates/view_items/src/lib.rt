// The items of a view, ten bytes each, written over a lent output.
#![tactic(auto)]

ghost use Rattle.std.specs.Prelude.{◌≡◌, ◌+◌, ◌*◌, ◌/◌, ◌≤◌};
ghost use Rattle.kit.specs.Names.{length};
ghost use Rattle.memory_buffer.specs.Buffer.{stored};
ghost use Rattle.ledger_contents.specs.Contents.{contents_of};
ghost use Rattle.view_item.specs.Items.{shown};

use ledger_contents::content_at;
use view_content::put_content;

// The items of contents, one behind another.
pub fn put_items(flat: &[u32], party: u8, out: &mut [u8], at: usize)
    requires { at + 10 * (length flat.now / 5) ≤ length out.old }
    ensures { out.new ≡ stored out.old at (shown party (contents_of flat.now)) }
{
    for i in 0..flat.len() / 5 {
        let content = content_at(flat, i);
        put_content(out, at + 10 * i, party, content);
    }
}
