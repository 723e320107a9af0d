// Lists kept in the order of a key, entries that stand one after another in bytes, and adding in any order.
// The crate has no code: what it says is defined in specs/ and proved in proofs/.
#![tactic(auto)]
