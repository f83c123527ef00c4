// What goes together where nodes are written.
#![tactic(auto)]

use rewrite_log::Position;

// Where writing stands: before an event and a variable of a function's log, and before a node, by the place and the number that it
// will have.
#[derive(Clone, Copy)]
pub struct Spot {
    pub p: Position,
    pub at: usize,
    pub base: usize,
}

// The entries of a function's log that are gone through: from which place on and how many, where the next number is noted, and the place
// and the number of the next node.
#[derive(Clone, Copy)]
pub struct Run {
    pub from: usize,
    pub left: usize,
    pub noted: usize,
    pub at: usize,
    pub base: usize,
}

// The number of the next variable, and the place and the number of the next node.
#[derive(Clone, Copy)]
pub struct Next {
    pub variable: usize,
    pub at: usize,
    pub base: usize,
}
