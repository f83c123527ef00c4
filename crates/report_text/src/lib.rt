// The report's text: decimal numbers, the refused line, the lines of the tallies, and their total.
#![tactic(auto)]

ghost use Rattle.std.specs.Prelude.{◌∷◌, ◌++◌, ◌+◌, ◌<◌, ◌≤◌};
ghost use Rattle.kit.specs.Names.{[], length};
ghost use Rattle.memory_append.specs.Append.{Appended};
ghost use Rattle.definitions.specs.Basics.{flat_map};
ghost use Rattle.definitions.specs.Report.{digits, decimal, refused_line, tally_line, report_lines};
ghost use Rattle.theory_crossings.specs.Crossings.{sum};
ghost use Rattle.report_order.specs.Counts.{ordered_tallies};
ghost use Rattle.report_text.specs.Lines.{spaced_count, word_line};

use memory_append::{append, append_byte};
use report_order::{count_of, sort_functions};
use report_total::total_of;

// A number's decimal digits, as many as there are levels at most.
pub fn append_digits(levels: usize, number: usize, out: &mut [u8], at: usize) -> usize
    requires { at + length (digits levels number) ≤ length out.old }
    ensures { Appended out.old out.new at (digits levels number) result }
{
    if levels == 0 {
        at
    } else if number < 10 {
        append_byte((48 + number) as u8, out, at)
    } else {
        let next = append_digits(levels - 1, number / 10, out, at);
        append_byte((48 + number % 10) as u8, out, next)
    }
}

// A line of a word and a number: `refused N`, `total N`.
fn append_word(word: &[u8], number: usize, out: &mut [u8], at: usize) -> usize
    requires { at + length (word_line word.now number) ≤ length out.old }
    ensures { Appended out.old out.new at (word_line word.now number) result }
{
    let next = append(word, out, at);
    let line = append_digits(20, number, out, next);
    append_byte(10, out, line)
}

// "A refused file prints `refused N`."
pub fn refused_line(number: u8, out: &mut [u8]) -> usize
    requires { length (refused_line number) ≤ length out.old }
    ensures { Appended out.old out.new 0 (refused_line number) result }
{
    append_word(b"refused ", number as usize, out, 0)
}

fn append_count(count: u16, out: &mut [u8], at: usize) -> usize
    requires { at + length (spaced_count count) ≤ length out.old }
    ensures { Appended out.old out.new at (spaced_count count) result }
{
    let next = append_byte(32, out, at);
    append_digits(20, count as usize, out, next)
}

// A function's number and its count.
fn append_tally(function: u8, count: u16, out: &mut [u8], at: usize) -> usize
    requires { at + length (decimal function ++ spaced_count count ++ (10 ∷ [])) ≤ length out.old }
    ensures { Appended out.old out.new at (decimal function ++ spaced_count count ++ (10 ∷ [])) result }
{
    let number = append_digits(20, function as usize, out, at);
    let line = append_count(count, out, number);
    append_byte(10, out, line)
}

// The lines of the functions that stand first in an order, one for each count.
fn append_tallies(counts: &[u16], order: &[u8], out: &mut [u8], from: usize) -> usize
    requires { (length counts.now ≤ length order.now)
        × (from + length (flat_map tally_line (ordered_tallies counts.now (length counts.now) order.now)) ≤ length out.old) }
    ensures { Appended out.old out.new from
        (flat_map tally_line (ordered_tallies counts.now (length counts.now) order.now)) result }
{
    let mut at = from;
    for function in &order[..counts.len()] {
        at = append_tally(*function, count_of(counts, *function as usize), out, at);
    }
    at
}

// "the line `function crossings`, then function number and count .., most first, ties by lower number". 02, Note 3: "After the last line
// print `total` and a number."
pub fn report_lines(counts: &[u16], out: &mut [u8]) -> usize
    requires { (length counts.now ≤ 16) × (length (report_lines counts.now (sum counts.now)) ≤ length out.old) }
    ensures { Appended out.old out.new 0 (report_lines counts.now (sum counts.now)) result }
{
    let functions = counts.len();
    let mut order: [u8; 16] = [0; 16];
    sort_functions(counts, &mut order);
    let total = total_of(counts, &order, functions);
    let heading = append(b"function crossings\n", out, 0);
    let lines = append_tallies(counts, &order, out, heading);
    append_word(b"total ", total, out, lines)
}
