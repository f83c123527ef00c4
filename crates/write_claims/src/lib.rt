// The constraints of a function's heading, six bytes each.
#![tactic(auto)]

ghost use Rattle.std.specs.Prelude.{◌+◌, ◌*◌, ◌<◌, ◌≤◌};
ghost use Rattle.kit.specs.Names.{length};
ghost use Rattle.memory_append.specs.Append.{Appended};
ghost use Rattle.write_circuits.specs.Circuits.{six_bytes, sixes_from};

use memory_append::append_two_bytes;

// "each guard (0, or 1 + variable), variable, root .., two bytes each"
pub fn append_claim(guard: u16, variable: u16, root: u16, out: &mut [u8], at: usize) -> usize
    requires { at + 6 ≤ length out.old }
    ensures { Appended out.old out.new at (six_bytes guard variable root) result }
{
    let next = append_two_bytes(guard as usize, out, at);
    let last = append_two_bytes(variable as usize, out, next);
    append_two_bytes(root as usize, out, last)
}

// The bytes of the claims whose numbers are the first `count` fours.
pub fn append_claims(numbers: &[u16], count: usize, out: &mut [u8], from: usize) -> usize
    requires { (4 * count ≤ length numbers.now) × (from + 6 * count ≤ length out.old) }
    ensures { Appended out.old out.new from (sixes_from numbers.now 0 count) result }
{
    let mut at = from;
    for i in 0..count {
        at = append_claim(
            numbers[4 * i],
            numbers[4 * i + 1],
            numbers[4 * i + 3],
            out,
            at,
        );
    }
    at
}
