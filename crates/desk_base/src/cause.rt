//! Which of several causes it was for which a rule refused a line.
ghost use Rattle.std.specs.Prelude.{◌≡◌};
ghost use Rattle.desk_base.specs.Cause.{cause_of_slot, has_empty_slot};
ghost use Rattle.map_tables.specs.Place.{stop_of_place};

use board::Board;
use board_state::{OnMap, slots};
use map_tables::{Place, joined_stop};

/// The cause for which a rule refused a line, where a rule has several.
#[derive(Clone, Copy)]
pub enum Cause {
    /// A1: it is in a turn of an opening, which has only BUY and BID of a private.
    TurnOfOpening,
    /// S1: it is in a turn of a stock round, and is not PAR, BUY, SELL or EXCHANGE.
    TurnOfStock,
    /// G6: it is above the first turn of an opening, and is neither a LIMIT nor a PAR.
    AboveTurnOfOpening,
    /// G6: it is above the first turn of a stock round.
    AboveTurnOfStock,
    /// G6: it is above the first company's orders, and is neither a DISCARD nor an OFFER.
    AboveCompany,
    /// G6: it is in a turn, and is a line of a file or of a certificate, or a COMPANY line.
    InTurn,
    /// G6: it is among a company's orders, and is not an order of a company.
    InOrders,
    /// L1: the company has used its lay in this turn.
    LayUsed,
    /// L1: the company has placed a token since.
    TokenPlaced,
    /// L1: the company has run since.
    HasRun,
    /// L1, D1: the company has paid or withheld.
    PaidOrWithheld,
    /// D1: the company has earned nothing to pay out.
    NothingEarned,
    /// R2, T6: the company has no train of the kind.
    NoSuchTrain,
    /// R2: it has some, and each of them has run.
    AllHaveRun,
    /// R2, of RUN BEST: the company has no train.
    NoTrain,
    /// R2, of RUN BEST: a train has run in the turn.
    SomeHaveRun,
    /// S1, of RAISE: the company has a train.
    HasTrain,
    /// S1, of RAISE: the company has none, and could not run one.
    RunsNone,
    /// S1, of RAISE: the company must buy one, and it and its president have enough money.
    NotShort,
    /// S5: the president would keep fewer than two shares, and nobody else has two.
    NobodyElse,
    /// S5, of RAISE: the presidency of the company that operates would move.
    PresidencyMoves,
    /// K3: the only empty slots of the stop are reserved for home tokens.
    SlotIsKept,
    /// K3: all slots of the stop have tokens.
    NoSlot,
    /// T4: the order or the offer names a price of 0.
    PriceIsZero,
    /// T5: the company would buy the train from itself.
    BuysFromItself,
    /// T6: the train that is bought is not a D.
    NotForDiesel,
    /// T6: the train that is traded in is not a 4, 5 or 6.
    NeverTraded,
}

impl Cause {
    /// Returns what is printed after the sentence of the rule. `%` stands for the company whose
    /// orders the line is among.
    pub fn words(self) -> &'static str {
        match self {
            Cause::TurnOfOpening => " (a turn of an opening has no such order)",
            Cause::TurnOfStock => " (a turn of a stock round has no such order)",
            Cause::AboveTurnOfOpening => " (above the first TURN only LIMIT and PAR have a place)",
            Cause::AboveTurnOfStock => " (above the first TURN nothing has a place)",
            Cause::AboveCompany => {
                " (above the first COMPANY only DISCARD and OFFER have a place)"
            }
            Cause::InTurn => " (a turn has no such line)",
            Cause::InOrders => " (the orders for % have no such line)",
            Cause::LayUsed => " (% has used its lay)",
            Cause::TokenPlaced => " (% has placed a token)",
            Cause::HasRun => " (% has run)",
            Cause::PaidOrWithheld => " (% has paid or withheld)",
            Cause::NothingEarned => " (% has earned nothing)",
            Cause::NoSuchTrain => " (% has no such train)",
            Cause::AllHaveRun => " (each such train of % has run)",
            Cause::NoTrain => " (% has no train)",
            Cause::SomeHaveRun => " (a train of % has run)",
            Cause::HasTrain => " (% has a train)",
            Cause::RunsNone => " (% could run no train)",
            Cause::NotShort => " (there is money enough)",
            Cause::NobodyElse => " (nobody else has two)",
            Cause::PresidencyMoves => " (the presidency of % would move)",
            Cause::SlotIsKept => " (a slot is kept for a home)",
            Cause::NoSlot => " (no slot is free)",
            Cause::PriceIsZero => " (the price is 0)",
            Cause::BuysFromItself => " (% is the buyer)",
            Cause::NotForDiesel => " (only for a D a train is traded in)",
            Cause::NeverTraded => " (only a 4, 5 or 6 is traded in)",
        }
    }
}

/// Returns why a stop of a city has no free slot for a token.
pub fn cause_of_slot(board: &Board, place: Place) -> Cause
    ensures { result ≡ cause_of_slot board.now (stop_of_place place) }
{
    if has_empty_slot(board, place) {
        Cause::SlotIsKept
    } else {
        Cause::NoSlot
    }
}

/// Returns whether a place names a stop of a city with an empty slot, reserved for a home token or
/// not.
fn has_empty_slot(board: &Board, place: Place) -> bool
    ensures { result ≡ has_empty_slot board.now (stop_of_place place) }
{
    match place.stop() {
        Some(stop) => board.count_at(joined_stop(stop)) < slots(board, stop),
        None => false,
    }
}
