// The three demands of document 01, its examples, and the wrong answers that they rule out.
// The crate has no code: what it says stands in specs/ and is proved in proofs/, from the crates below.
#![tactic(auto)]
