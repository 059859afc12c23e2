//! Tests of what no report shows, only through public calls, as a user would write them: of the
//! libraries below the sequence of rounds, whose calls no order file reaches or whose result no
//! report shows, each in its normal case; of what readers and writers see, readers and writers that
//! fail, and calls of the topmost libraries. What a report shows is a game of `games/`, which
//! `./check` plays; the desk's crates have their tests in `test_desk`.
//!
//! Reading order: `examples` (those at the roots of crates), `lines` (lines read and printed),
//! `boards` (tiles and tokens), `best` (the greatest revenue), `four_stops` (a network that is not
//! a board), `claims` (the runs of a claim, checked one after another), `marks` (bits kept, read
//! and printed), `accepting` (the marks of the best), `money` (cash, shares, events), `support`
//! (scripted readers and writers), `devices` (a call over them, each of whose calls may fail),
//! `running` (whole runs over them), `certifying` (certificates, written and verified, over them),
//! `migrating` (a file that migrates to version 2, over them), `watching` (a reader or writer that
//! remembers a failure), `texts` (reports), `sequence` (the rounds after the bank is broken),
//! `refusing` (a runner that refuses), `stepping` (a game a round at a time). `bench/agree`
//! compares the search with a slow one on small boards.
#![tactic(auto)]

#[cfg(test)]
mod accepting;
#[cfg(test)]
mod best;
#[cfg(test)]
mod boards;
#[cfg(test)]
mod certifying;
#[cfg(test)]
mod claims;
#[cfg(test)]
mod devices;
#[cfg(test)]
mod examples;
mod four_stops;
#[cfg(test)]
mod lines;
#[cfg(test)]
mod marks;
#[cfg(test)]
mod migrating;
#[cfg(test)]
mod money;
#[cfg(test)]
mod refusing;
#[cfg(test)]
mod running;
#[cfg(test)]
mod sequence;
#[cfg(test)]
mod stepping;
#[cfg(test)]
mod support;
#[cfg(test)]
mod texts;
#[cfg(test)]
mod watching;
