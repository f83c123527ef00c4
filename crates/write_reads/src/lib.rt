// A variable read in a circuit: as it stands where it is plain, opened where it is a cell.
#![tactic(auto)]

ghost use Rattle.std.specs.Prelude.{◌≡◌, ◌+◌, ◌≤◌};
ghost use Rattle.kit.specs.Names.{length};
ghost use Rattle.definitions.specs.ContractFile.{node};
ghost use Rattle.definitions.specs.Rewriting.{node_bytes};
ghost use Rattle.memory_buffer.specs.Buffer.{stored};
ghost use Rattle.write_reads.specs.Forms.{read_kind};

use file_kinds::{OPENED_BYTE, VARIABLE_BYTE};
use write_nodes::put_leaf;

// "9 variable first, 10 variable first opened"
pub fn put_read(public: bool, variable: usize, out: &mut [u8], at: usize) -> usize
    requires { at + 8 ≤ length out.old }
    ensures { (out.new ≡ stored out.old at (node_bytes (node (read_kind public) 0 variable 0 0))) × (result ≡ 1) }
{
    if public {
        put_leaf(VARIABLE_BYTE, 0, variable, 0, out, at)
    } else {
        put_leaf(OPENED_BYTE, 0, variable, 0, out, at)
    }
}
