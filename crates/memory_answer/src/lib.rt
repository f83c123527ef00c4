// What an entry that writes to lent memory answers: a number, 0 where it wrote, and the length of what it wrote, 0 where it did not.
#![tactic(auto)]

#[derive(Clone, Copy)]
pub struct Answer {
    pub number: u8,
    pub length: usize,
}
