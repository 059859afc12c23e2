//! What a company's trains would earn at their best after each of its lays and tokens.
ghost use Rattle.std.specs.Prelude.{IfOk};
ghost use Rattle.board_state.specs.MapState.{position_of, with_lay, with_token};
ghost use Rattle.legal_runs.specs.Set.{IsGreatestMoney};
ghost use Rattle.operating.specs.MapState.{map_state_now};

use crate::fault::MovesFault;
use crate::lay_text::{has_same_track, push_rotations, push_tile, push_token};
use desk_base::Piece::{Column, Count, Number, Right, Words};
use desk_base::{fill, push};
use desk_may::{Progress, Trains};
use map_tables::{Lay, Place};
use moves::Priced;
use order_grammar::{PlayOrder, print_play_order};
use std::alloc::AllocError;
use std::cmp::Reverse;
use tables::Money;

/// The column of the rotations.
const ROTATIONS: usize = 38;

/// A company with its trains, what it may lay and place, and how much of that has been tried.
#[derive(Drop)]
pub(crate) struct Earning<'a, P> {
    pub(crate) trains: Trains<'a>,
    pub(crate) lays: &'a [Priced<Lay>],
    pub(crate) tokens: &'a [Priced<Place>],
    /// How many of the lays and tokens have been tried.
    pub(crate) done: usize,
    /// Where progress is reported.
    pub(crate) progress: &'a mut P,
}

/// What the trains earn after a lay or a token.
#[derive(Clone, Copy)]
struct Earned {
    /// The place of the lay or the token in its list.
    place: usize,
    /// The greatest revenue after it, in dollars.
    best: Money,
}

impl<P: Progress> Earning<'_, P> {
    /// Adds order lines, each with its price and the revenue after it.
    pub(crate) fn push_lines(&mut self, out: &mut Vec<u8>) -> Result<(), MovesFault> {
        for lay in self.lays {
            let best = self.after_lay(lay.what)?;
            push_line(out, PlayOrder::Lay(lay.what), lay.price, best)?;
        }
        for token in self.tokens {
            let best = self.after_token(token.what)?;
            push_line(out, PlayOrder::Token(token.what), token.price, best)?;
        }
        Ok(())
    }

    /// Adds the present revenue, a line for each track that may be laid and earns more, the
    /// greatest revenue first, and the same for tokens. A line says how many others there are.
    pub(crate) fn push_table(&mut self, out: &mut Vec<u8>) -> Result<(), MovesFault> {
        let now = self.trains.best_now()?;
        fill(out, "BEST NOW          %\n", &[Number(now)])?;
        self.push_lays(out, now)?;
        self.push_tokens(out, now)
    }

    /// Adds the lays.
    fn push_lays(&mut self, out: &mut Vec<u8>, now: Money) -> Result<(), MovesFault> {
        let earned = self.lays_earned()?;
        fill(
            out,
            "\nHEX  TILE  LEFT  PRICE   BEST   MORE  ROTATIONS\n",
            &[],
        )?;
        let lays = self.lays;
        for earning in earned.iter().take_while(|earning| now < earning.best) {
            let from = lays.get(earning.place..).unwrap_or(&[]);
            if let Some(lay) = from.first() {
                push_tile(out, self.trains.history, *lay)?;
                push_revenue(out, earning.best, now)?;
                push(out, &[Column(ROTATIONS)])?;
                push_rotations(out, from, lay.what)?;
                fill(out, "\n", &[])?;
            }
        }
        Ok(push_others(out, &earned, now, "lay", "lays")?)
    }

    /// Returns the first lay of each track, with what the trains earn after it, the greatest
    /// revenue first.
    fn lays_earned(&mut self) -> Result<Vec<Earned>, MovesFault> {
        let mut earned = Vec::new(self.trains.alloc);
        let lays = self.lays;
        for (place, lay) in lays.iter().enumerate() {
            let before = lays.get(..place).unwrap_or(&[]);
            if has_same_track(before, lay.what) {
                self.done = self.done.saturating_add(1);
            } else {
                let best = self.after_lay(lay.what)?;
                keep(&mut earned, Earned { place, best })?;
            }
        }
        earned.sort_by_key(|earning| Reverse(earning.best))?;
        Ok(earned)
    }

    /// Adds the tokens.
    fn push_tokens(&mut self, out: &mut Vec<u8>, now: Money) -> Result<(), MovesFault> {
        let mut earned = Vec::new(self.trains.alloc);
        let tokens = self.tokens;
        for (place, token) in tokens.iter().enumerate() {
            let best = self.after_token(token.what)?;
            keep(&mut earned, Earned { place, best })?;
        }
        earned.sort_by_key(|earning| Reverse(earning.best))?;
        fill(out, "\nTOKEN            PRICE   BEST   MORE\n", &[])?;
        for earning in earned.iter().take_while(|earning| now < earning.best) {
            if let Some(token) = tokens.get(earning.place) {
                push_token(out, *token)?;
                push_revenue(out, earning.best, now)?;
                fill(out, "\n", &[])?;
            }
        }
        Ok(push_others(out, &earned, now, "token", "tokens")?)
    }

    /// Returns the greatest revenue after a lay, in dollars, and reports that it has been tried.
    fn after_lay(&mut self, lay: Lay) -> Result<Money, MovesFault>
        ensures { let its = self.old.trains in IfOk result (IsGreatestMoney
            (position_of (with_lay (map_state_now its.history.now.events) lay))
            its.company its.kinds.now) }
    {
        let best = self.trains.best_after_lay(lay)?;
        self.tell();
        Ok(best)
    }

    /// Returns the greatest revenue after a token, in dollars, and reports that it has been tried.
    fn after_token(&mut self, place: Place) -> Result<Money, MovesFault>
        ensures { let its = self.old.trains in IfOk result (IsGreatestMoney
            (position_of (with_token (map_state_now its.history.now.events) place its.company))
            its.company its.kinds.now) }
    {
        let best = self.trains.best_after_token(place)?;
        self.tell();
        Ok(best)
    }

    /// Reports that one more has been tried.
    fn tell(&mut self) {
        self.done = self.done.saturating_add(1);
        let of = self.lays.len().saturating_add(self.tokens.len());
        self.progress.tell(self.done, of);
    }
}

/// Adds a line with an order, its price and a revenue.
fn push_line(
    out: &mut Vec<u8>,
    order: PlayOrder,
    price: Money,
    best: Money,
) -> Result<(), AllocError> {
    print_play_order(out, order)?;
    fill(out, "    %    %\n", &[Number(price), Number(best)])
}

/// Adds a revenue, and how much more it is than the present one.
fn push_revenue(out: &mut Vec<u8>, best: Money, now: Money) -> Result<(), AllocError> {
    push(out, &[Right(7, best), Right(7, best.saturating_sub(now))])
}

/// Keeps what the trains earn after a lay or a token.
fn keep(list: &mut Vec<Earned>, earned: Earned) -> Result<(), AllocError> {
    list.push(earned)?;
    Ok(())
}

/// Adds how many earn no more than now.
fn push_others(
    out: &mut Vec<u8>,
    earned: &Vec<Earned>,
    now: Money,
    one: &str,
    many: &str,
) -> Result<(), AllocError> {
    if earned.is_empty() {
        return fill(out, "none\n", &[]);
    }
    let others = earned.iter().filter(|earning| earning.best <= now).count();
    match others {
        0 => Ok(()),
        1 => fill(out, "1 % earns nothing more\n", &[Words(one)]),
        _ => fill(
            out,
            "% % earn nothing more\n",
            &[Count(others), Words(many)],
        ),
    }
}
