//! Calls that play a round, or a company's turn, and take the game by value.

use crate::call::{Call, made};
use crate::fault::OutcomeFault;
use crate::outcome::Outcome;
use best_run::Search;
use certificate::RunnerFault;
use history::History;
use operating::play_company;
use privates::play_opening;
use sheets::Sheets;
use std::rt::Runtime;
use stock_round::play_stock;
use tables::{Company, Round, Seat};

const PRR: Company = Company::Pennsylvania;

/// Plays the opening round: all six privates are sold.
pub fn plays_opening(rt: &HostRuntime, sheets: &Sheets) -> Result<Outcome, OutcomeFault> {
    let game = History::start(rt.alloc(), sheets.seats());
    Call::PlayOpening.begin(rt)?;
    let answer = play_opening(rt.alloc(), game, sheets, Round::Opening(1));
    made(rt)?;
    Ok(match answer {
        Ok(game) => Outcome::of_answer(game.now().cheapest_unsold().is_none()),
        Err(_) => Outcome::of_refusal(true),
    })
}

/// Plays a stock round in which nothing has happened before: ANN starts PRR.
pub fn plays_stock(rt: &HostRuntime, sheets: &Sheets) -> Result<Outcome, OutcomeFault> {
    let game = History::start(rt.alloc(), sheets.seats());
    Call::PlayStock.begin(rt)?;
    let answer = play_stock(rt.alloc(), game, sheets, Round::Stock(1));
    made(rt)?;
    Ok(match answer {
        Ok(game) => Outcome::of_answer(game.now().president(PRR) == Some(Seat(0))),
        Err(_) => Outcome::of_refusal(true),
    })
}

/// Plays PRR's first turn: it lays a tile.
pub fn plays_company(rt: &HostRuntime, sheets: &Sheets) -> Result<Outcome, OutcomeFault> {
    let game = History::start(rt.alloc(), sheets.seats());
    let game = play_opening(rt.alloc(), game, sheets, Round::Opening(1))?;
    if game.seats() != sheets.seats() {
        return Err(OutcomeFault::Position);
    }
    let game = play_stock(rt.alloc(), game, sheets, Round::Stock(1))?;
    if game.seats() != sheets.seats() || !game.floated(PRR) {
        return Err(OutcomeFault::Position);
    }
    let mut search = Search::new(rt.alloc());
    let round = Round::Operating { set: 1, number: 1 };
    Call::PlayCompany.begin(rt)?;
    let answer = play_company(rt.alloc(), game, sheets, round, PRR, &mut search);
    made(rt)?;
    Ok(match answer {
        Ok(game) => Outcome::of_answer(game.laid(0).is_some()),
        Err(fault) => Outcome::of_refusal(fault == RunnerFault::Memory),
    })
}
