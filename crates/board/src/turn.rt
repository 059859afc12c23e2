//! What the rules of lays and tokens need to know of a turn: its steps, and the company that asks.
ghost use Rattle.std.specs.Prelude.{◌≡◌};
ghost use Rattle.board.specs.Turn.{place_of_step};

use tables::{Company, Money, PerPrivate};

/// A step of a company's turn, in order.
#[derive(Clone, Copy, Debug, PartialEq, Eq)]
pub enum TurnStep {
    Lay,
    Token,
    Run,
    Pay,
    Trains,
}

impl TurnStep {
    /// Returns its number, from 1.
    pub fn number(self) -> u8
        ensures { result ≡ place_of_step self }
    {
        match self {
            TurnStep::Lay => 1,
            TurnStep::Token => 2,
            TurnStep::Run => 3,
            TurnStep::Pay => 4,
            TurnStep::Trains => 5,
        }
    }
}

/// The company that wants to lay a tile or place a token, and the step of its turn.
#[derive(Clone, Copy, Debug, PartialEq, Eq)]
pub struct Asker {
    pub company: Company,
    /// Its cash, in dollars.
    pub cash: Money,
    /// The first step that is still open to it in this turn.
    pub pointer: TurnStep,
    /// Whether it has used its lay in this turn.
    pub lay_used: bool,
    /// Whether that was DH's lay: 57 on F16, by the company that owns DH.
    pub dh_laid: bool,
    /// The privates that it owns, by their places in the roster.
    pub own_privates: PerPrivate<bool>,
    /// The privates that players own, by their places in the roster.
    pub player_privates: PerPrivate<bool>,
}
