// 01, The contract file: "Operators: 0 +, 1 −, 2 ×, 3 /, 4 %, 5 <, 6 ≤, 7 ==, 8 !=, 9 and, 10 or.", worked out on numbers of 32 bits.
#![tactic(auto)]

ghost use Rattle.std.specs.Prelude.{◌≡◌, ◌&&◌, ◌||◌, ◌/◌, ◌%◌};
ghost use Rattle.definitions.specs.Basics.{bit, is_true};
ghost use Rattle.definitions.specs.ContractFile.{plus, minus, times, operator_of};
ghost use Rattle.definitions.specs.Original.{operate, negate};

use file_kinds::*;

// A bool's number.
pub fn bit_of(b: bool) -> u32
    ensures { result ≡ bit b }
{
    if b { 1 } else { 0 }
}

// "Uint arithmetic is modulo 4,294,967,296." The language's own wrapping sum. A wrong program that this rules out: a sum that saturates.
pub fn sum(left: u32, right: u32) -> u32
    ensures { result ≡ operate plus left right }
{
    std::num::wrapping_add_u32(left, right)
}

// The language's own wrapping difference, so that 0 - 1 is the largest uint.
pub fn difference(left: u32, right: u32) -> u32
    ensures { result ≡ operate minus left right }
{
    std::num::wrapping_sub_u32(left, right)
}

// The product is made over 64 bits, where it cannot wrap.
pub fn product(left: u32, right: u32) -> u32
    ensures { result ≡ operate times left right }
{
    (left as u64 * right as u64 % 4294967296) as u32
}

// What has no quotient gives 0: the call that divides by 0 fails, and its numbers are given up.
fn quotient(left: u32, right: u32) -> u32
    ensures { result ≡ left / right }
{
    if right == 0 { 0 } else { left / right }
}

fn rest(left: u32, right: u32) -> u32
    ensures { result ≡ left % right }
{
    if right == 0 { left } else { left % right }
}

fn both(left: u32, right: u32) -> u32
    ensures { result ≡ bit (is_true left && is_true right) }
{
    if left == 0 { 0 } else { bit_of(right != 0) }
}

fn either(left: u32, right: u32) -> u32
    ensures { result ≡ bit (is_true left || is_true right) }
{
    if left == 0 { bit_of(right != 0) } else { 1 }
}

// A not, on the number of a bool.
pub fn negated(part: u32) -> u32
    ensures { result ≡ negate part }
{
    bit_of(part == 0)
}

// An operator by its code, for the original, the circuits and the walk alike.
pub fn operated(code: usize, left: u32, right: u32) -> u32
    ensures { result ≡ operate (operator_of code) left right }
{
    match code {
        MINUS => difference(left, right),
        TIMES => product(left, right),
        DIVIDED => quotient(left, right),
        REMAINDER => rest(left, right),
        LESS => bit_of(left < right),
        LESS_OR_EQUAL => bit_of(left <= right),
        EQUAL => bit_of(left == right),
        NOT_EQUAL => bit_of(left != right),
        AND => both(left, right),
        OR => either(left, right),
        _ => sum(left, right),
    }
}
