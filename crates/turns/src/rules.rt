//! The trait `TurnRules`, with the rules of one kind of round that is played in turns.
ghost use Rattle.std.specs.Prelude.{◌≡◌, ◌<◌, ℕ, List, OnOk, IfOk, false};
ghost use Rattle.events.specs.declared.event.Event.{Event};
ghost use Rattle.events.specs.declared.event.Event.TheVariants as event;
ghost use Rattle.totals.specs.LookBack.{Game, with_event, with_events};
ghost use Rattle.history.specs.Games.{IsGame};
ghost use Rattle.history.specs.Record.{left_recorded};
ghost use Rattle.history.specs.Sound.{IsSound};
ghost use Rattle.sheets.specs.Part.{line_unread};
ghost use Rattle.tables.specs.declared.round.Round.{Round};
ghost use Rattle.tables.specs.declared.seat.Seat.{Seat};
ghost use Rattle.turns.specs.RoundOfTurns.{RoundRules, in_turn};
ghost use Rattle.turns.specs.Small.{IsSmallReading};

use history::History;
use order_grammar::Order;
use sheets::UnreadLine;
use std::alloc::AllocError;
use tables::Seat;

/// The rules of one kind of round of turns. Each call that changes the game fails only if
/// allocation fails, after which the game is dropped.
pub trait TurnRules {
    /// What a seat has done in a turn.
    type TurnActions: Copy;

    /// The rules of such a round.
    ghost rules: { RoundRules Self.TurnActions };

    /// What such a round requires of the list before it, besides soundness.
    ghost may_begin: { List Event → Type 0 };

    /// What holds of the game from the ROUND event on.
    ghost holds: { Game → Type 0 };

    /// Rules a standing line of a seat. Overwrites `order`.
    fn rule_standing_line(
        &self,
        history: &mut History,
        seat: Seat,
        line: UnreadLine,
        order: &mut Order,
    ) -> Result<(), AllocError>
        requires small { IsSmallReading (line_unread line).reading }
        requires underway { holds history.old }
        ensures after { OnOk result (history.new ≡ with_events history.old
            (rules.standing seat history.old.events (line_unread line.entry))) }
        ensures underway { OnOk result (holds history.new) };

    /// Returns what a seat has done before the first line of its turn.
    fn nothing(&self) -> Self::TurnActions
        ensures { result ≡ rules.nothing };

    /// Rules a line of a written turn, and carries it out if it is obeyed. Overwrites `order`.
    /// Returns what the seat has done in its turn so far.
    fn rule_line(
        &self,
        history: &mut History,
        seat: Seat,
        line: UnreadLine,
        order: &mut Order,
        actions: Self::TurnActions,
    ) -> Result<Self::TurnActions, AllocError>
        requires at_table { seat.0 < history.old.seats }
        requires small { IsSmallReading (line_unread line).reading }
        requires underway { holds history.old }
        ensures seats { OnOk result (history.new.seats ≡ history.old.seats) }
        ensures turn { IfOk result (λ now. in_turn history.new.events now
            ≡ rules.line history.old.seats seat (in_turn history.old.events actions)
            (line_unread line.entry)) }
        ensures underway { OnOk result (holds history.new) };

    /// Returns whether a seat that has done this has acted; otherwise it passes.
    fn has_acted(&self, actions: Self::TurnActions) -> bool
        ensures { result ≡ rules.has_acted actions };

    /// Returns whether the turns are over though not all seats have passed in succession.
    fn is_over(&self, history: &History) -> bool
        ensures { result ≡ rules.over history.now.events };

    /// Carries out what follows the turns.
    fn close(&self, history: &mut History) -> Result<(), AllocError>
        requires some { 0 < history.old.seats }
        requires underway { holds history.old }
        ensures after { OnOk result (history.new
            ≡ with_events history.old (rules.closed history.old.seats history.old.events)) }
        ensures underway { OnOk result (holds history.new) };

    /// It is a game all through the round: at most six seats, and a sound list.
    ghost stays_game: { (game : Game) → holds game → IsGame game };

    /// The ROUND event begins it.
    ghost begins: { (game : Game) (round : Round) → may_begin game.events
        → IsGame (with_event game (event.Round round))
        → holds (with_event game (event.Round round)) };

    /// A pass keeps `holds` true.
    ghost passes: { (game : Game) (seat : Seat) → holds game
        → IsSound (with_event game (event.Passes seat))
        → holds (with_event game (event.Passes seat)) };

    /// So does the count of lines that were not reached.
    ghost leaves: { (game : Game) (seat : Seat) (lines : ℕ) → holds game
        → IsSound (left_recorded seat lines game) → holds (left_recorded seat lines game) };

    /// A seat that has done nothing has not acted.
    ghost idle: { rules.has_acted rules.nothing ≡ false };
}
