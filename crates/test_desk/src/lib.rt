//! Tests of the desk's crates, only through public calls, as a user would write them: the examples
//! at the roots of crates, and the lines of a page where several runs meet. What the desk writes of
//! a game is in `games/desk` and `games/page`, which `./check` compares.
//!
//! They stand apart from `test_umpire`, whose tests need none of the desk's crates.
//!
//! Reading order: `examples` (those at the roots of crates), `lanes` (runs over one border, on a
//! page).
#![tactic(auto)]

#[cfg(test)]
mod examples;
#[cfg(test)]
mod lanes;
