// The checker reads a crate's definitions and theorems only beside a function; this one is private and does nothing.
#![tactic(auto)]

fn nothing() {}
