//! Calls on the map: a line of three cities, with PRR's home in the middle.

use crate::call::{Call, made};
use crate::fault::OutcomeFault;
use crate::outcome::Outcome;
use best_run::{Best, Keeping, Search, best};
use board::{Asker, Board, BoardFault, LayFault, PlainBoard, TokenFault, TurnStep};
use certificate::{Group, Runner, RunnerFault};
use map_tables::{Hex, Lay, Place, Rotation, Stop, StopNumber, TileNo};
use reach::{Network, Reach, reached};
use std::alloc::{AllocError, Global};
use std::rt::Runtime;
use tables::{Company, Kind, Money, PRIVATES, Round};

const PRR: Company = Company::Pennsylvania;

/// A 3 and a 2, which run from PRR's home to the east and to the west for 60.
const TRAINS: [Kind; 2] = [Kind::Three, Kind::Two];

/// More tokens than fit in the value of a board, and than a list has room for at first.
const MANY: usize = 60;

/// How often the best is kept: more often than a list has room for at first.
const KEPT: usize = 6;

/// A round.
const ROUND: Round = Round::Operating { set: 1, number: 1 };

/// Returns PRR, which has laid nothing in its turn and has this cash.
fn asker(cash: Money) -> Asker {
    Asker {
        company: PRR,
        cash,
        pointer: TurnStep::Lay,
        lay_used: false,
        dh_laid: false,
        own_privates: [false; PRIVATES],
        player_privates: [false; PRIVATES],
    }
}

/// Returns a tile that is turned by one sixth.
fn laid(hex: Hex, tile: TileNo) -> Lay {
    Lay {
        hex,
        tile,
        rot: Rotation::One,
        swap: false,
    }
}

/// Returns a straight piece of track.
fn straight(hex: Hex) -> Lay {
    laid(hex, TileNo::T9)
}

/// Returns the tiles of the line.
fn line() -> [Lay; 3] {
    [
        laid(Hex::H10, TileNo::T57),
        laid(Hex::H14, TileNo::T9),
        laid(Hex::H16, TileNo::T57),
    ]
}

/// Returns the first stop of a hex.
fn first(hex: Hex) -> Stop {
    Stop {
        hex,
        number: StopNumber::First,
    }
}

/// Returns PRR's home token.
fn home() -> [(Place, Company); 1] {
    [(first(Hex::H12).place(), PRR)]
}

/// Returns the line and the token.
fn board(alloc: Global) -> Result<Board, OutcomeFault> {
    match Board::of(alloc, &line(), &home(), Kind::Two) {
        Ok(board) => Ok(board),
        Err(_) => Err(OutcomeFault::Position),
    }
}

/// Makes the board.
pub fn lays_out(rt: &HostRuntime) -> Result<Outcome, OutcomeFault> {
    Call::BoardOf.begin(rt)?;
    let answer = Board::of(rt.alloc(), &line(), &home(), Kind::Two);
    made(rt)?;
    Ok(match answer {
        Ok(board) => Outcome::of_answer(board.tiles_laid() == 3 && board.tokens_placed() == 1),
        Err(fault) => Outcome::of_refusal(fault == BoardFault::Memory),
    })
}

/// Makes the plain board, with PRR's token on it.
pub fn lays_out_plain(rt: &HostRuntime) -> Result<Outcome, OutcomeFault> {
    Call::PlainBoardOf.begin(rt)?;
    let answer = PlainBoard::of(rt.alloc(), &line(), &home(), Kind::Two);
    made(rt)?;
    Ok(match answer {
        Ok(board) => Outcome::of_answer(board.token(first(Hex::H12), PRR)),
        Err(fault) => Outcome::of_refusal(fault == BoardFault::Memory),
    })
}

/// Lays tiles one after another on an empty board. If one fails, the board has those before it.
pub fn puts_lays(rt: &HostRuntime) -> Result<Outcome, OutcomeFault> {
    let mut board = Board::empty(rt.alloc(), Kind::Two);
    let tiles = [Hex::H6, Hex::H8, Hex::H14, Hex::F12, Hex::H16].map(straight);
    Call::PutLay.begin(rt)?;
    let count = put_lays(&mut board, &tiles);
    made(rt)?;
    let are_as_owed = board.tiles_laid() == count
        && board.links(Hex::H6).is_empty() == (count == 0)
        && board.links(Hex::H16).is_empty() == (count < tiles.len());
    Ok(if count == tiles.len() {
        Outcome::of_answer(are_as_owed)
    } else {
        Outcome::of_refusal(are_as_owed)
    })
}

/// Lays tiles up to the first that fails. Returns how many were laid.
fn put_lays(board: &mut Board, tiles: &[Lay]) -> usize {
    for (count, tile) in tiles.iter().enumerate() {
        if board.put_lay(*tile).is_err() {
            return count;
        }
    }
    tiles.len()
}

/// Places more tokens than are in the value of a board. If one fails, the board has those before
/// it.
pub fn puts_tokens(rt: &HostRuntime) -> Result<Outcome, OutcomeFault> {
    let mut board = board(rt.alloc())?;
    Call::PutToken.begin(rt)?;
    let count = put_tokens(&mut board);
    made(rt)?;
    let are_as_owed = board.tokens_placed() == count.saturating_add(1)
        && board.token(first(Hex::H10), PRR) == (count > 0);
    Ok(if count == MANY {
        Outcome::of_answer(are_as_owed)
    } else {
        Outcome::of_refusal(are_as_owed)
    })
}

/// Places tokens of PRR on the west end of the line up to the first that fails. Returns how many
/// were placed.
fn put_tokens(board: &mut Board) -> usize {
    for count in 0..MANY {
        if board.put_token(first(Hex::H10).place(), PRR).is_err() {
            return count;
        }
    }
    MANY
}

/// Tries a tile beyond the west end, which PRR reaches and may lay for nothing.
pub fn tries_lay(rt: &HostRuntime) -> Result<Outcome, OutcomeFault> {
    let board = board(rt.alloc())?;
    let tile = laid(Hex::H8, TileNo::T9);
    Call::TryLay.begin(rt)?;
    let answer = board.try_lay(&asker(0), tile);
    made(rt)?;
    let is_before = board.tiles_laid() == 3;
    Ok(match answer {
        Err(LayFault::Memory(_)) => Outcome::of_refusal(is_before),
        other => Outcome::of_answer(other == Ok(0) && is_before),
    })
}

/// Tries a second token, which costs 40.
pub fn tries_token(rt: &HostRuntime) -> Result<Outcome, OutcomeFault> {
    let board = board(rt.alloc())?;
    Call::TryToken.begin(rt)?;
    let answer = board.try_token(&asker(40), first(Hex::H10).place());
    made(rt)?;
    let is_before = board.tokens_placed() == 1;
    Ok(match answer {
        Err(TokenFault::Memory(_)) => Outcome::of_refusal(is_before),
        other => Outcome::of_answer(other == Ok(40) && is_before),
    })
}

/// Finds what PRR reaches: the three cities.
pub fn reaches(rt: &HostRuntime) -> Result<Outcome, OutcomeFault> {
    let board = board(rt.alloc())?;
    Call::Reached.begin(rt)?;
    let answer = reached(rt.alloc(), &board, PRR);
    made(rt)?;
    Ok(outcome_of_reach(answer))
}

/// The same on the plain board.
pub fn reaches_plain(rt: &HostRuntime) -> Result<Outcome, OutcomeFault> {
    let Ok(board) = PlainBoard::of(rt.alloc(), &line(), &home(), Kind::Two) else {
        return Err(OutcomeFault::Position);
    };
    Call::ReachedPlain.begin(rt)?;
    let answer = reached(rt.alloc(), &board, PRR);
    made(rt)?;
    Ok(outcome_of_reach(answer))
}

/// The outcome of what PRR reaches on the line: the three cities.
fn outcome_of_reach(answer: Result<Reach, AllocError>) -> Outcome {
    match answer {
        Ok(reach) => {
            let stops = [Hex::H10, Hex::H12, Hex::H16].map(first);
            Outcome::of_answer(reach.stops() == stops.as_slice())
        }
        Err(_) => Outcome::of_refusal(true),
    }
}

/// Returns the outcome of the best that PRR's trains do on the line.
fn outcome_of(answer: Result<Best, AllocError>) -> Outcome {
    match answer {
        Ok(best) => {
            let runs = best.claim.runs.as_slice().len();
            Outcome::of_answer(best.claim.revenue == 60 && runs == 2)
        }
        Err(_) => Outcome::of_refusal(true),
    }
}

/// Finds the best on the board.
pub fn finds_best(rt: &HostRuntime) -> Result<Outcome, OutcomeFault> {
    let board = board(rt.alloc())?;
    Call::Best.begin(rt)?;
    let answer = best(rt.alloc(), &board, PRR, &TRAINS);
    made(rt)?;
    Ok(outcome_of(answer))
}

/// Finds the best on the plain board.
pub fn finds_best_plain(rt: &HostRuntime) -> Result<Outcome, OutcomeFault> {
    let Ok(board) = PlainBoard::of(rt.alloc(), &line(), &home(), Kind::Two) else {
        return Err(OutcomeFault::Position);
    };
    Call::BestPlain.begin(rt)?;
    let answer = best(rt.alloc(), &board, PRR, &TRAINS);
    made(rt)?;
    Ok(outcome_of(answer))
}

/// Finds the greatest revenue by the runner that searches.
pub fn searches(rt: &HostRuntime) -> Result<Outcome, OutcomeFault> {
    let board = board(rt.alloc())?;
    let mut search = Search::new(rt.alloc());
    Call::Search.begin(rt)?;
    let answer = search.earn(&board, ROUND, PRR, &TRAINS);
    made(rt)?;
    Ok(match answer {
        Err(fault) => Outcome::of_refusal(fault == RunnerFault::Memory),
        Ok(money) => Outcome::of_answer(money == 60),
    })
}

/// Keeps the best of one call after another. If one fails, those before it are kept.
pub fn keeps(rt: &HostRuntime) -> Result<Outcome, OutcomeFault> {
    let board = board(rt.alloc())?;
    let mut keeping = Keeping::new(rt.alloc());
    Call::Keeping.begin(rt)?;
    let (count, fault) = keep_many(&mut keeping, &board);
    made(rt)?;
    let are_as_owed = keeping.kept().len() == count && are_best(keeping.kept());
    Ok(match fault {
        None => Outcome::of_answer(are_as_owed && count == KEPT),
        Some(fault) => Outcome::of_refusal(are_as_owed && fault == RunnerFault::Memory),
    })
}

/// Keeps the best up to the first that fails. Returns how many were kept, and why no more.
fn keep_many(keeping: &mut Keeping, board: &Board) -> (usize, Option<RunnerFault>) {
    for count in 0..KEPT {
        if let Err(fault) = keeping.earn(board, ROUND, PRR, &TRAINS) {
            return (count, Some(fault));
        }
    }
    (KEPT, None)
}

/// Returns whether each group is that of the best that PRR's trains do on the line.
fn are_best(groups: &[Group]) -> bool {
    for group in groups {
        if group.round != ROUND || group.company != PRR || group.claim.revenue != 60 {
            return false;
        }
    }
    true
}
