// The lines that `disclose` prints: a number in decimal, each disclosed value in decimal after a space, a line feed.
#![tactic(auto)]

ghost use Rattle.std.specs.Prelude.{◌+◌, ◌*◌, ◌≤◌};
ghost use Rattle.kit.specs.Names.{length};
ghost use Rattle.definitions.specs.Basics.{flat_map};
ghost use Rattle.memory_append.specs.Append.{Appended};
ghost use Rattle.disclose_lines.specs.Lines.{spaced_value, disclosed_line, LineWritten};

use memory_append::append_byte;
use report_text::append_digits;

// A space, and at most twenty digits.
fn append_value(value: u32, out: &mut [u8], at: usize) -> usize
    requires { at + 21 ≤ length out.old }
    ensures { Appended out.old out.new at (spaced_value value) result }
{
    let next = append_byte(32, out, at);
    append_digits(20, value as usize, out, next)
}

fn append_values(values: &[u32], out: &mut [u8], from: usize) -> usize
    requires { from + 21 * length values.now ≤ length out.old }
    ensures { Appended out.old out.new from (flat_map spaced_value values.now) result }
{
    let mut at = from;
    for value in values {
        at = append_value(*value, out, at);
    }
    at
}

fn append_line(number: u8, values: &[u32], out: &mut [u8]) -> usize
    requires { 21 + 21 * length values.now ≤ length out.old }
    ensures { Appended out.old out.new 0 (disclosed_line number values.now) result }
{
    let digits = append_digits(20, number as usize, out, 0);
    let text = append_values(values, out, digits);
    append_byte(10, out, text)
}

// The line at the front of a lent output, and its length: 0 where there is no room, and the output is then as it was.
pub fn write_line(number: u8, values: &[u32], out: &mut [u8]) -> usize
    ensures { LineWritten number values.now out.old out.new result }
{
    if out.len() < 21 {
        return 0;
    }
    if (out.len() - 21) / 21 < values.len() {
        return 0;
    }
    append_line(number, values, out)
}
