// The arguments that a program was started with: names of files, and no options so far.
#![tactic(auto)]

ghost use Rattle.std.specs.Prelude.{◌≡◌, ◌≤◌};
ghost use Rattle.program_arguments.specs.Options.{is_option};

use std::env::{Env, FillError};

// Whether each argument is the name of a file, and how many there are: 0 where one is not.
// Kept: what `read_names` promises is a bound on the count of every answer, `result.count ≤ most`.
#[derive(Clone, Copy)]
pub struct Names {
    pub known: bool,
    pub count: usize,
}

pub fn is_option(argument: &[u8]) -> bool
    ensures { result ≡ is_option argument.now }
{
    if argument.len() == 0 {
        false
    } else {
        argument[0] == b'-'
    }
}

// An argument that is too long for the buffer still leaves its first bytes there, and an empty one leaves zeros.
fn is_option_at(rt: &HostRuntime, place: usize) -> bool {
    let mut argument = io::buffer();
    let _filled = rt.arg(place, &mut argument);
    is_option(&argument)
}

// Whether there is an argument at a place; one that is too long for the buffer is there too.
fn is_given(rt: &HostRuntime, place: usize) -> bool {
    let mut argument = io::buffer();
    !matches!(rt.arg(place, &mut argument), Err(FillError::NotPresent))
}

// How many arguments follow the program's own name.
fn given(rt: &HostRuntime) -> usize {
    for passed in 0..usize::MAX - 1 {
        if !is_given(rt, passed + 1) {
            return passed;
        }
    }
    0
}

// At most so many names, and no option: anything else is not known.
pub fn read_names(rt: &HostRuntime, most: usize) -> Names
    ensures { result.count ≤ most }
{
    let count = given(rt);
    if most < count || (1..=count).any(|place| is_option_at(rt, place)) {
        return Names {
            known: false,
            count: 0,
        };
    }
    Names { known: true, count }
}
