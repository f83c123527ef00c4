// The lines that a rehearsal prints: a number in decimal, a space, a view in lowercase hexadecimal, a line feed.
#![tactic(auto)]

ghost use Rattle.std.specs.Prelude.{◌≡◌, ◌+◌, ◌*◌, ◌<◌, ◌≤◌};
ghost use Rattle.kit.specs.Names.{length};
ghost use Rattle.memory_append.specs.Append.{Appended};
ghost use Rattle.definitions.specs.Report.{decimal};
ghost use Rattle.rehearse_lines.specs.Lines.{hex_digit, hex_byte, hex_text, view_line, LineWritten};

use memory_append::append_byte;

// 0 to 9, then a to f.
fn hex_digit(n: u8) -> u8
    requires { n < 16 }
    ensures { result ≡ hex_digit n }
{
    if n < 10 { 48 + n } else { 87 + n }
}

fn append_hex_byte(byte: u8, out: &mut [u8], at: usize) -> usize
    requires { at + 2 ≤ length out.old }
    ensures { Appended out.old out.new at (hex_byte byte) result }
{
    let high = hex_digit(byte / 16);
    let low = hex_digit(byte % 16);
    let next = append_byte(high, out, at);
    append_byte(low, out, next)
}

// Two digits for each byte.
fn append_hex(bytes: &[u8], out: &mut [u8], from: usize) -> usize
    requires { from + 2 * length bytes.now ≤ length out.old }
    ensures { Appended out.old out.new from (hex_text bytes.now) result }
{
    let mut at = from;
    for byte in bytes {
        at = append_hex_byte(*byte, out, at);
    }
    at
}

// A number of one byte has at most three digits.
fn append_decimal(number: u8, out: &mut [u8], at: usize) -> usize
    requires { at + 3 ≤ length out.old }
    ensures { Appended out.old out.new at (decimal number) result }
{
    if number < 10 {
        return append_byte(48 + number, out, at);
    }
    let tenth = number / 10;
    if tenth < 10 {
        let next = append_byte(48 + tenth, out, at);
        return append_byte(48 + number % 10, out, next);
    }
    let hundreds = append_byte(48 + tenth / 10, out, at);
    let tens = append_byte(48 + tenth % 10, out, hundreds);
    append_byte(48 + number % 10, out, tens)
}

fn append_line(number: u8, view: &[u8], out: &mut [u8]) -> usize
    requires { 5 + 2 * length view.now ≤ length out.old }
    ensures { Appended out.old out.new 0 (view_line number view.now) result }
{
    let digits = append_decimal(number, out, 0);
    let space = append_byte(32, out, digits);
    let text = append_hex(view, out, space);
    append_byte(10, out, text)
}

// The line at the front of a lent output, and its length: 0 where there is no room, and the output is then as it was.
pub fn write_line(number: u8, view: &[u8], out: &mut [u8]) -> usize
    ensures { LineWritten number view.now out.old out.new result }
{
    if out.len() < 5 {
        return 0;
    }
    if (out.len() - 5) / 2 < view.len() {
        return 0;
    }
    append_line(number, view, out)
}
