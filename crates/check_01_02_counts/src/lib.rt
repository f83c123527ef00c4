// Numbers 1 and 2: a file's end, and its counts.
#![tactic(auto)]

ghost use Rattle.std.specs.Prelude.{◌≡◌, ◌+◌, ◌*◌, ◌≤◌};
ghost use Rattle.kit.specs.Names.{ltb, length};
ghost use Rattle.definitions.specs.Basics.{any};
ghost use Rattle.definitions.specs.ContractFile.{function_records};
ghost use Rattle.definitions.specs.Numbers.{ends_wrongly, count_off_limits};
ghost use Rattle.file_bytes.specs.Layout.{IsLayout};

use file_bytes::{Layout, byte_at, function_end};

// "1. The file ends too early for its counts, or bytes remain."
pub fn ends_wrongly(file: &[u8], l: Layout) -> bool
    requires { IsLayout file.now l }
    ensures { result ≡ ends_wrongly file.now }
{
    let end = l.nodes_at + 2 + 8 * l.nodes;
    file.len() != end
}

// Whether some function has more than eight parameters.
fn many_parameters(file: &[u8], from: usize, count: usize) -> bool
    requires { from + 513 * count ≤ 200000 }
    ensures { result ≡ any (λ f. ltb 8 (length f.parameters)) (function_records count file.now from) }
{
    let mut at = from;
    for _ in 0..count {
        let many = 8 < byte_at(file, at);
        if many {
            return true;
        }
        at = function_end(file, at);
    }
    false
}

// "2. A count is off its limits."
pub fn count_off_limits(file: &[u8], l: Layout) -> bool
    requires { IsLayout file.now l }
    ensures { result ≡ count_off_limits file.now }
{
    let many = many_parameters(file, l.functions_at + 1, l.functions);
    (64 < l.fields) | (l.functions == 0) | (16 < l.functions) | many | (512 < l.nodes)
}
