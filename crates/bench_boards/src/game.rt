//! A board read line by line: its phase, a company with its trains, and the tiles and tokens on the
//! map. It gives the greatest revenue of those trains.

use crate::fault::LinesFault;
use best_run::Search;
use board::Board;
use certificate::Runner;
use map_tables::{Hex, Lay, Place, Rotation, TileNo};
use std::alloc::{AllocError, Global};
use tables::{Company, Kind, Money, Round};

/// What the lines of a board say.
#[derive(Drop)]
pub struct BoardLines {
    number: u32,
    is_begun: bool,
    phase: Kind,
    company: Option<Company>,
    trains: Vec<Kind>,
    lays: Vec<Lay>,
    tokens: Vec<(Place, Company)>,
}

impl BoardLines {
    /// Returns an empty board.
    pub fn new(alloc: Global) -> BoardLines {
        BoardLines {
            number: 0,
            is_begun: false,
            phase: Kind::Two,
            company: None,
            trains: Vec::new(alloc),
            lays: Vec::new(alloc),
            tokens: Vec::new(alloc),
        }
    }

    /// Returns whether a line begins a board.
    pub fn is_board(&self, line: &str) -> bool {
        line.starts_with("BOARD")
    }

    /// Returns whether a line of the board was read.
    pub fn is_begun(&self) -> bool {
        self.is_begun
    }

    /// Returns the board's number; 0 if it has none.
    pub fn number(&self) -> u32 {
        self.number
    }

    /// Returns the company whose trains run. The error is `Company` if none is named.
    pub fn company(&self) -> Result<Company, LinesFault> {
        self.company.ok_or(LinesFault::Company)
    }

    /// Returns the company's trains.
    pub fn trains(&self) -> &[Kind] {
        &self.trains
    }

    /// Returns the board with its tiles and tokens. The error is `Board` or `Memory`.
    pub fn board(&self, alloc: Global) -> Result<Board, LinesFault> {
        Ok(Board::of(alloc, &self.lays, &self.tokens, self.phase)?)
    }

    /// Returns the greatest revenue of the company's trains on the board, in dollars, as an order
    /// to run the best routes would find it. The error is `Company`, `Board` or `Memory`.
    pub fn revenue(&self, alloc: Global) -> Result<Money, LinesFault> {
        let company = self.company()?;
        let board = self.board(alloc)?;
        let round = Round::Operating { set: 1, number: 1 };
        let mut search = Search::new(alloc);
        Ok(search.earn(&board, round, company, &self.trains)?)
    }

    /// Reads a line. The error is `Line` or `Memory`.
    pub fn read_line(&mut self, line: &str) -> Result<(), LinesFault> {
        let mut words = line.split_whitespace();
        let Some(first) = words.next() else {
            return Ok(());
        };
        self.is_begun = true;
        if first == "TRAINS" {
            for word in words {
                push(&mut self.trains, kind_of(word)?)?;
            }
            return Ok(());
        }
        let second = words.next().unwrap_or("");
        let third = words.next().unwrap_or("");
        let fourth = words.next().unwrap_or("");
        let swap = words.next() == Some("SWAP");
        self.put(first, second, third, fourth, swap)
    }

    /// Takes the words of a line. The error is `Line` or `Memory`.
    fn put(
        &mut self,
        first: &str,
        second: &str,
        third: &str,
        fourth: &str,
        swap: bool,
    ) -> Result<(), LinesFault> {
        match first {
            "BOARD" => self.number = number_of(second)?,
            "PHASE" => self.phase = kind_of(second)?,
            "COMPANY" => self.company = Some(company_of(second)?),
            "LAY" => push(&mut self.lays, lay_of(second, third, fourth, swap)?)?,
            "TOKEN" => push(&mut self.tokens, (place_of(second)?, company_of(third)?))?,
            "GREATEST" => {}
            _ => return Err(LinesFault::Line),
        }
        Ok(())
    }
}

/// Appends an item. Fails only if allocation fails.
fn push<T: Drop>(items: &mut Vec<T>, item: T) -> Result<(), AllocError> {
    items.push(item)?;
    Ok(())
}

/// Returns a number in decimal digits. The error is `Line`.
fn number_of(word: &str) -> Result<u32, LinesFault> {
    word.parse::<u32>().map_err(|_| LinesFault::Line)
}

/// Returns the kind of train that a word names. The error is `Line`.
fn kind_of(word: &str) -> Result<Kind, LinesFault> {
    for &kind in &Kind::ALL {
        if kind.code() == word {
            return Ok(kind);
        }
    }
    Err(LinesFault::Line)
}

/// Returns the company that a word names. The error is `Line`.
fn company_of(word: &str) -> Result<Company, LinesFault> {
    for &company in &Company::ALL {
        if company.code() == word {
            return Ok(company);
        }
    }
    Err(LinesFault::Line)
}

/// Returns the stop that a word names. The error is `Line`.
fn place_of(word: &str) -> Result<Place, LinesFault> {
    Place::from_text(word.as_bytes()).ok_or(LinesFault::Line)
}

/// Returns a tile with its hex and rotation. The error is `Line`.
fn lay_of(tile: &str, hex: &str, rotation: &str, swap: bool) -> Result<Lay, LinesFault> {
    Ok(Lay {
        hex: Hex::from_text(hex.as_bytes()).ok_or(LinesFault::Line)?,
        tile: TileNo::from_text(tile.as_bytes()).ok_or(LinesFault::Line)?,
        rot: Rotation::from_text(rotation.as_bytes()).ok_or(LinesFault::Line)?,
        swap,
    })
}
