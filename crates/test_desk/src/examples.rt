//! The examples at the roots of the desk's crates, word for word: `./check docs` compares them.

use desk_check::{Extent, check};
use desk_moves::{read_company, read_hex, read_kind};
use desk_round::round;
use desk_state::read_round;
use map_tables::Hex;
use page::page;
use page_all::page_of_all;
use std::test::Fail;
use tables::{Company, Kind, Round};

/// ANN buys SV in the first opening round, and then all pass.
const FIRST: &str = "GAME 1830 1
PLAYERS ANN BOB CYD
SHEET ANN PR1
TURN
BUY SV
SHEET BOB PR1
SHEET CYD PR1
";

#[test]
fn desk_round_writes_a_round(rt: HostRuntime) {
    let Ok(text) = round(rt.alloc(), FIRST.as_bytes(), Some(Round::Opening(1))) else {
        panic!(rt; "not played")
    };
    assert!(rt; text.as_slice().starts_with(b"ROUND PR1\nANN 2 OBEYED"));
}

#[test]
fn desk_state_reads_the_name_of_a_round(rt: HostRuntime) {
    let round = read_round(b"or1.2");
    assert_eq!(rt; round, Some(Round::Operating { set: 1, number: 2 }));
}

#[test]
fn desk_check_tells_why_a_file_is_refused(rt: HostRuntime) -> Result<(), Fail> {
    let extent = Extent { all: true, from: 1 };
    let findings = check(rt.alloc(), b"PLAYERS ANN BOB CYD\n", extent)?;
    assert!(rt; findings.refused.is_some());
    Ok(())
}

#[test]
fn desk_moves_reads_words(rt: HostRuntime) {
    assert_eq!(rt; read_company(b"nyc"), Some(Company::NewYorkCentral));
    assert_eq!(rt; read_hex(b"h12"), Some(Hex::H12));
    assert_eq!(rt; read_kind(b"d"), Some(Kind::Diesel));
}

#[test]
fn page_is_html(rt: HostRuntime) {
    let Ok(text) = page(rt.alloc(), FIRST.as_bytes(), None, "") else {
        panic!(rt; "no page")
    };
    assert!(rt; text.as_slice().starts_with(b"<!DOCTYPE html>\n"));
}

#[test]
fn page_all_is_html(rt: HostRuntime) {
    let Ok(text) = page_of_all(rt.alloc(), FIRST.as_bytes(), None, "") else {
        panic!(rt; "no page")
    };
    assert!(rt; text.as_slice().starts_with(b"<!DOCTYPE html>\n"));
}
