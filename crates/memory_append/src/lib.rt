// Bytes appended to those that a lent buffer already holds up to a place; the answer is the place behind them.
#![tactic(auto)]

ghost use Rattle.std.specs.Prelude.{◌∷◌, ◌+◌, ◌%◌, ◌/◌, ◌≤◌};
ghost use Rattle.kit.specs.Names.{[], length};
ghost use Rattle.memory_append.specs.Append.{Appended};

use memory_buffer::put_byte;

// One byte behind others; the answer is the next place, so that parts are written in a row.
pub fn append_byte(value: u8, out: &mut [u8], at: usize) -> usize
    requires { at + 1 ≤ length out.old }
    ensures { Appended out.old out.new at (value ∷ []) result }
{
    put_byte(out, at, value);
    at + 1
}

// A number of two bytes, low byte first.
pub fn append_two_bytes(value: usize, out: &mut [u8], at: usize) -> usize
    requires { at + 2 ≤ length out.old }
    ensures { Appended out.old out.new at (value % 256 ∷ value / 256 % 256 ∷ []) result }
{
    let next = append_byte((value % 256) as u8, out, at);
    append_byte((value / 256 % 256) as u8, out, next)
}

// A run of bytes behind others.
pub fn append(bytes: &[u8], out: &mut [u8], at: usize) -> usize
    requires { at + length bytes.now ≤ length out.old }
    ensures { Appended out.old out.new at bytes.now result }
{
    let end = at + bytes.len();
    out[at..end].copy_from_slice(bytes);
    end
}
