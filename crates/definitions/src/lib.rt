// Document 01 is in specs/, the cases that pin it are in proofs/. The checker reads them only beside a function; this one is private and
// does nothing.
#![tactic(auto)]

fn nothing() {}
