// The paper as definitions (specs/) and their laws (proofs/). There is no code here: every other crate cites this one.
#![tactic(auto)]
