// What code may rely on of a function of an accepted contract, in one value.
#![tactic(auto)]

ghost use Rattle.file_accepted.specs.Context.{Context};

// A function of an accepted contract, as code reads it: the contract's file, where the function begins in it, and the
// file's nodes as decoded numbers.
#[derive(Clone, Copy)]
pub struct CheckedFunction<'a> {
    pub file: &'a [u8],
    pub at: usize,
    pub source: &'a [u16],
    pub ghost context: { Context file.now at source.now },
}
