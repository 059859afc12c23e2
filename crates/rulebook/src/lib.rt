//! The examples of the rulebook: small games, computed from the definitions by the prover. No
//! program uses this crate. Each file of its proofs is an example of a chapter of `docs/rulebook`.
#![tactic(auto)]
