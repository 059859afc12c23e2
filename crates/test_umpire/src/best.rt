//! The best of a company's trains: worked examples, found by hand on the printed map.

use crate::boards::{PRR, first, laid, line, of_prr};
use crate::claims::claimed;
use crate::four_stops::FourStops;
use best_run::best;
use board::PlainBoard;
use map_tables::{Hex, Run, TileNo};
use reach::{Network, reached};
use std::alloc::{AllocError, Global};
use tables::{Company, Kind};

/// Tests two 2s of which only one can run, no train, and a company without a token.
#[test]
fn runs_a_link(rt: HostRuntime) {
    let Ok(board) = of_prr(rt.alloc(), &[laid(Hex::H10, TileNo::T57)]) else {
        panic!(rt; "refused")
    };
    let twos = [Kind::Two, Kind::Two];
    for (company, trains, earned) in [
        (PRR, twos.as_slice(), (1, 30)),
        (PRR, &[], (0, 0)),
        (Company::NewYorkCentral, &twos, (0, 0)),
    ] {
        let found = claimed(rt.alloc(), &board, company, trains);
        assert_eq!(rt; found, Ok(Some(earned)), "{company:?}");
    }
}

/// Returns whether a run leads from one hex to another, in either direction.
fn runs_between(run: &Run, one: Hex, other: Hex) -> bool {
    match run.as_slice() {
        [first, .., last] => {
            (first.hex == one && last.hex == other) || (first.hex == other && last.hex == one)
        }
        _ => false,
    }
}

/// Tests a 2 that runs west from PRR's home and a 3 that runs east. That is more than the 3 earns
/// alone by running through.
#[test]
fn runs_two_trains(rt: HostRuntime) {
    let Ok(board) = of_prr(rt.alloc(), &line()) else {
        panic!(rt; "refused")
    };
    let trains = [Kind::Three, Kind::Two];
    assert_eq!(rt; run_to_both_ends(rt.alloc(), &board, &trains), Ok(true));
}

/// Returns whether the best of PRR's trains run from its home to both ends of the line.
fn run_to_both_ends<N: Network>(
    alloc: Global,
    network: &N,
    trains: &[Kind],
) -> Result<bool, AllocError> {
    let answer = best(alloc, network, PRR, trains)?;
    let runs = answer.claim.runs.as_slice();
    let mut ends = [Hex::H10, Hex::H16].iter();
    Ok(ends.all(|far| {
        runs.iter()
            .any(|claimed| runs_between(&claimed.run, Hex::H12, *far))
    }))
}

/// Returns whether PRR reaches three cities of a line, and a 3 and a 2 earn 60 there.
fn is_line<N: Network>(alloc: Global, network: &N) -> Result<bool, AllocError> {
    let stops = [Hex::H10, Hex::H12, Hex::H16].map(first);
    let reach = reached(alloc, network, PRR)?;
    let earned = claimed(alloc, network, PRR, &[Kind::Three, Kind::Two])?;
    Ok(reach.stops() == stops.as_slice() && earned == Some((2, 60)))
}

/// Tests that from its home PRR reaches the cities at both ends of the line over H14.
#[test]
fn board_is_a_network(rt: HostRuntime) -> Result<(), AllocError> {
    let Ok(board) = of_prr(rt.alloc(), &line()) else {
        panic!(rt; "refused")
    };
    assert!(rt; is_line(rt.alloc(), &board)?);
    Ok(())
}

/// Tests the same with a plain board of this line.
#[test]
fn plain_board_is_a_network(rt: HostRuntime) -> Result<(), AllocError> {
    let tokens = [(first(Hex::H12).place(), PRR)];
    let Ok(plain) = PlainBoard::of(rt.alloc(), &line(), &tokens, Kind::Two) else {
        panic!(rt; "refused")
    };
    assert!(rt; is_line(rt.alloc(), &plain)?);
    Ok(())
}

/// Tests what trains earn on a network that is not a board, found by hand. H12 to G13 is worth 80,
/// H12 to G11 70, and H10 to G11 60. One train visits all four, from G11 over H10 and H12 to G13.
/// NYC, whose token lies only in G11, reaches G13 and no further, since it is red.
#[test]
fn runs_on_four_stops(rt: HostRuntime) {
    let earned = [
        (PRR, &[Kind::Two, Kind::Two, Kind::Two][..], (3, 210)),
        (PRR, &[Kind::Three], (1, 120)),
        (PRR, &[Kind::Diesel], (1, 140)),
        (Company::NewYorkCentral, &[Kind::Two], (1, 90)),
        (Company::BostonMaine, &[Kind::Diesel], (0, 0)),
    ];
    for (company, trains, best) in earned {
        let found = claimed(rt.alloc(), &FourStops, company, trains);
        assert_eq!(rt; found, Ok(Some(best)), "{company:?}");
    }
}
