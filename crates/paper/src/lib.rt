// The cases that document 01, "Tried on paper", marks P: one table of them, and one statement that covers it.
//
// The table is the record Paper in specs/Paper.antt, a field for each case, over the definitions of the other crates; the statement is
// `paper` in proofs/Paper.antt. There is no code here, and nothing stands on this crate.

#![tactic(auto)]
