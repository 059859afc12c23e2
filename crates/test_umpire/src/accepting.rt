//! The marks of the best runs are accepted unchanged, and no others.

use crate::boards::{PRR, first, laid, line};
use crate::four_stops::FourStops;
use best_run::best;
use board::{Board, BoardFault};
use certificate::{Bits, Claim, ClaimedRuns, accepts, write_marks};
use map_tables::{Hex, TileNo};
use reach::Network;
use std::alloc::{AllocError, Global};
use tables::{Company, Kind};

/// Returns some bits, one after another.
fn listed(alloc: Global, bits: &Bits) -> Result<Vec<bool>, AllocError> {
    let mut reader = bits.reader();
    let mut marks = Vec::new(alloc);
    for _ in 0..u64::MAX {
        let Some(mark) = reader.read() else {
            break;
        };
        marks.push(mark)?;
    }
    Ok(marks)
}

/// Returns whether the best of PRR's trains is accepted by its marks, and refused by any prefix of
/// them and with a revenue of one less. Also, a claim of nothing must be refused.
fn is_accepted_as_it_is<N: Network>(
    alloc: Global,
    network: &N,
    trains: &[Kind],
) -> Result<bool, AllocError> {
    let mut found = best(alloc, network, PRR, trains)?;
    let marks = listed(alloc, &found.marks)?;
    let mut is_right = only_all_are_accepted(network, trains, &found.claim, &marks);
    is_right &= nothing_is_refused(alloc, network, trains, &marks)?;
    found.claim.revenue = found.claim.revenue.saturating_sub(1);
    Ok(is_right && !accepts(network, PRR, trains, &found.claim, &marks))
}

/// Returns whether a claim is accepted by these marks, and by no prefix of them.
fn only_all_are_accepted<N: Network>(
    network: &N,
    trains: &[Kind],
    claim: &Claim,
    marks: &[bool],
) -> bool {
    for count in 0..marks.len() {
        if accepts(network, PRR, trains, claim, &marks[..count]) {
            return false;
        }
    }
    accepts(network, PRR, trains, claim, marks)
}

/// Returns whether a claim of nothing, which holds, is refused by these marks and by those written
/// for 0.
fn nothing_is_refused<N: Network>(
    alloc: Global,
    network: &N,
    trains: &[Kind],
    marks: &[bool],
) -> Result<bool, AllocError> {
    let nothing = Claim {
        revenue: 0,
        runs: ClaimedRuns::new(alloc),
    };
    let all = listed(alloc, &write_marks(alloc, network, PRR, trains, 0)?)?;
    Ok(
        !accepts(network, PRR, trains, &nothing, marks)
            && !accepts(network, PRR, trains, &nothing, &all),
    )
}

/// Returns a line of three cities with tokens in the middle and at an end.
fn line_with_two_tokens(alloc: Global) -> Result<Board, BoardFault> {
    let tokens = [Hex::H12, Hex::H16].map(|hex| (first(hex).place(), PRR));
    Board::of(alloc, &line(), &tokens, Kind::Two)
}

/// Tests a D and a 2 on that line.
#[test]
fn accepts_the_best_on_a_line(rt: HostRuntime) -> Result<(), AllocError> {
    let Ok(board) = line_with_two_tokens(rt.alloc()) else {
        panic!(rt; "refused")
    };
    let trains = [Kind::Diesel, Kind::Two];
    assert!(rt; is_accepted_as_it_is(rt.alloc(), &board, &trains)?);
    Ok(())
}

/// Returns a longer line, with another city beyond the second, which is full.
fn line_with_a_full_city(alloc: Global) -> Result<Board, BoardFault> {
    let line = [
        laid(Hex::H4, TileNo::T57),
        laid(Hex::H6, TileNo::T9),
        laid(Hex::H8, TileNo::T9),
        laid(Hex::H10, TileNo::T57),
    ];
    let tokens = [
        (first(Hex::H10).place(), Company::NewYorkCentral),
        (first(Hex::H12).place(), PRR),
    ];
    Board::of(alloc, &line, &tokens, Kind::Two)
}

/// Tests a 3 and two 2s on that line.
#[test]
fn accepts_the_best_before_a_full_city(rt: HostRuntime) -> Result<(), AllocError> {
    let Ok(board) = line_with_a_full_city(rt.alloc()) else {
        panic!(rt; "refused")
    };
    let trains = [Kind::Three, Kind::Two, Kind::Two];
    assert!(rt; is_accepted_as_it_is(rt.alloc(), &board, &trains)?);
    Ok(())
}

/// Tests a D and a 2 on four stops.
#[test]
fn accepts_the_best_on_four_stops(rt: HostRuntime) -> Result<(), AllocError> {
    let trains = [Kind::Diesel, Kind::Two];
    assert!(rt; is_accepted_as_it_is(rt.alloc(), &FourStops, &trains)?);
    Ok(())
}
