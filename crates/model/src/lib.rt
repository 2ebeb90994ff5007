// No code: this crate is the paper in definitions (specs/) and what is proved of them (proofs/).
#![tactic(auto)]
