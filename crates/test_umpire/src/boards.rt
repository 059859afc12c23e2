//! Tiles and tokens on a board: worked examples, found by hand on the printed map.

use board::{Asker, Board, BoardFault, LayFault, TokenFault, TurnStep};
use map_tables::{
    Hex, Lay, LayRule, Place, Rotation, Side, Stop, StopNumber, TileNo, TokenRule, TrackEnd,
};
use reach::Network;
use std::alloc::Global;
use tables::{Company, Kind, Money, PRIVATES};

pub(crate) const PRR: Company = Company::Pennsylvania;

/// Returns a company that has laid nothing in its turn and has this cash.
fn asker(company: Company, cash: Money) -> Asker {
    Asker {
        company,
        cash,
        pointer: TurnStep::Lay,
        lay_used: false,
        dh_laid: false,
        own_privates: [false; PRIVATES],
        player_privates: [false; PRIVATES],
    }
}

/// Returns a tile that is turned by one sixth.
pub(crate) fn laid(hex: Hex, tile: TileNo) -> Lay {
    Lay {
        hex,
        tile,
        rot: Rotation::One,
        swap: false,
    }
}

/// Returns the first stop of a hex.
pub(crate) fn first(hex: Hex) -> Stop {
    Stop {
        hex,
        number: StopNumber::First,
    }
}

/// Returns a board with some tiles and PRR's home token.
pub(crate) fn of_prr(alloc: Global, lays: &[Lay]) -> Result<Board, BoardFault> {
    Board::of(alloc, lays, &[(first(Hex::H12).place(), PRR)], Kind::Two)
}

/// Returns a line of three cities, with PRR's home in the middle.
pub(crate) fn line() -> [Lay; 3] {
    [
        laid(Hex::H10, TileNo::T57),
        laid(Hex::H14, TileNo::T9),
        laid(Hex::H16, TileNo::T57),
    ]
}

/// Tests that the second token costs 40, and that the city is then full for others but not for its
/// owner.
#[test]
fn puts_a_token(rt: HostRuntime) {
    let Ok(mut board) = of_prr(rt.alloc(), &[laid(Hex::H10, TileNo::T57)]) else {
        panic!(rt; "refused")
    };
    let place = first(Hex::H10).place();
    assert!(rt; costs_forty(&board, place));
    assert_eq!(rt; board.put_token(place, PRR), Ok(()));
    assert!(rt; is_full_of_prr(&board, first(Hex::H10)));
}

/// Returns whether PRR's token costs 40 at a place.
fn costs_forty(board: &Board, place: Place) -> bool {
    let few = Err(TokenFault::Rule(TokenRule::CashTooSmall));
    board.try_token(&asker(PRR, 39), place) == few
        && board.try_token(&asker(PRR, 40), place) == Ok(40)
}

/// Returns whether PRR's token lies on a stop, which is full for others but not for PRR.
fn is_full_of_prr(board: &Board, stop: Stop) -> bool {
    board.token(stop, PRR) && !board.full(stop, PRR) && board.full(stop, Company::NewYorkCentral)
}

/// A swapped tile on ERIE's home.
const SWAPPED: Lay = Lay {
    hex: Hex::E11,
    tile: TileNo::T59,
    rot: Rotation::Zero,
    swap: true,
};

/// Returns the board of phase 3 with ERIE's home token.
fn of_erie(alloc: Global) -> Result<Board, BoardFault> {
    let home = [(first(Hex::E11).place(), Company::Erie)];
    Board::of(alloc, &[], &home, Kind::Three)
}

/// Tests ERIE's home: green tiles come in phase 3, and a swapped tile's stop 0 leaves by its other
/// side.
#[test]
fn puts_a_swapped_tile(rt: HostRuntime) {
    let Ok(mut board) = of_erie(rt.alloc()) else {
        panic!(rt; "refused")
    };
    let erie = asker(Company::Erie, 0);
    assert_eq!(rt; board.try_lay(&erie, SWAPPED), Ok(0));
    assert_eq!(rt; board.put_lay(SWAPPED), Ok(()));
    assert!(rt; leaves_first_stop_by(&board, Hex::E11) == Some(TrackEnd::Side(Side::NorthWest)));
    let again = board.try_lay(&erie, SWAPPED);
    assert_eq!(rt; again, Err(LayFault::Rule(LayRule::WrongTile)));
}

/// Returns where the first track to a hex's first stop begins.
fn leaves_first_stop_by(board: &Board, hex: Hex) -> Option<TrackEnd> {
    let links = board.links(hex);
    let mut links = links.as_slice().iter();
    let leaves = links.find(|link| link.b == TrackEnd::Stop(StopNumber::First))?;
    Some(leaves.a)
}
