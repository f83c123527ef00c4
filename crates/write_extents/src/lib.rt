// 01, Rewriting: how far written functions reach: whether a contract is short and a function verified, how many numbers its constraints
// take, where the next one goes.
#![tactic(auto)]

ghost use Rattle.std.specs.Prelude.{◌≡◌, ◌+◌, ◌*◌, ◌≤◌};
ghost use Rattle.kit.specs.Names.{leb, ltb};

// Where the headings end, and how many nodes there are.
#[derive(Clone, Copy)]
pub struct Extent {
    pub end: usize,
    pub nodes: usize,
}

// Whether a contract of so many nodes is written and walked in short memory, which costs less to clear.
pub fn is_short(nodes: usize) -> bool
    ensures { result ≡ leb nodes 64 }
{
    nodes <= 64
}

// Whether a file of so many bytes has at most 64 nodes whatever it holds.
pub fn is_short_file(length: usize) -> bool
    ensures { result ≡ leb length 512 }
{
    length <= 512
}

// Whether a file of so many bytes, of which there are at most 18 times as many when it is written, is written in the least memory.
pub fn is_tiny(length: usize) -> bool
    ensures { result ≡ leb length 112 }
{
    length <= 112
}

// "A verify ends the body if any constraint exists."
pub fn is_verified(constraints: usize) -> bool
    ensures { result ≡ ltb 0 constraints }
{
    0 < constraints
}

// A constraint is kept as four numbers.
pub fn numbers_of(constraints: usize) -> usize
    requires { 4 * constraints ≤ 18446744073709551615 }
    ensures { result ≡ 4 * constraints }
{
    4 * constraints
}

// What is written with one function more, whose heading stands behind those before it.
pub fn behind(before: Extent, written: Extent) -> Extent
    requires { before.nodes + written.nodes ≤ 65535 }
    ensures { (result.end ≡ written.end) × (result.nodes ≡ before.nodes + written.nodes) }
{
    Extent {
        end: written.end,
        nodes: before.nodes + written.nodes,
    }
}
