// What the parts of number 18's test make of a ledger, whatever holds it.
#![tactic(auto)]

// The checker reads a crate's definitions and theorems only beside a function; this one is private and does nothing.
fn nothing() {}
