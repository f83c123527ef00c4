// Where a file's functions begin.
#![tactic(auto)]

ghost use Rattle.std.specs.Prelude.{◌≡◌, ◌+◌, ◌*◌, ◌≤◌};
ghost use Rattle.file_accepted.specs.Functions.{function_start};

use file_bytes::{byte_at, function_end};

// The place of a function's record: records have no fixed length, so those before it are passed one by one.
pub fn function_start(file: &[u8], f: u8) -> usize
    ensures value { result ≡ function_start file.now f }
    ensures upper_bound { result ≤ 200000 }
{
    let fields = byte_at(file, 0);
    let mut at = 1 + 3 * fields + 1;
    for _ in 0..f {
        at = function_end(file, at);
    }
    at
}
