//! Numbers below a count and pairs of them: definitions, and the lemmas on truth values, options, lists and
//! numbers that the proofs of the other crates share. It has no functions.
#![tactic(auto)]
