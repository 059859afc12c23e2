//! A coming operating round, played turn by turn up to the orders of a company.
ghost use Rattle.std.specs.Prelude.{◌≡◌, IfOk, Some, length, true};
ghost use Rattle.foresight.specs.Ahead.{HasTurn, IsBehindDraft, opened_state};
ghost use Rattle.foresight.specs.Orders.{IsAhead, IsLed};
ghost use Rattle.history.specs.Sound.{IsSound};
ghost use Rattle.market.specs.OperatingOrder.{next_company};
ghost use Rattle.purchases.specs.Discard.{is_president};
ghost use Rattle.sheets.specs.File.{players_of};
ghost use Rattle.operating.specs.GameAndBoard.{IsLaidOut};
ghost use Rattle.operating.specs.Turn.{IsCompanyTurn};
ghost use Rattle.totals.specs.Shares.{is_floated, president_of};

use crate::draft::Draft;
use crate::orders_ahead::OrdersAhead;
use best_run::Search;
use forced_purchase::Operator;
use history::History;
use legal_runs::RunnerFault;
use market::next_company;
use operating::{GameAndBoard, begin_turn, pass_turn, play_on};
use purchases::is_president;
use std::alloc::{AllocError, Global};
use std::marker::Model;
use tables::{Company, Round, Seat};

/// A coming operating round, as far as it has been played.
#[derive(Drop)]
pub struct RoundAhead<'a> {
    pub(crate) alloc: Global,
    pub(crate) draft: Draft<'a>,
    pub(crate) round: Round,
    pub(crate) game: GameAndBoard,
}

/// In a contract it is whose sheet is looked at, the round, and the game so far.
impl<'a> Model for RoundAhead<'a> {
    ghost use Rattle.std.specs.Prelude.{◌≡◌, length};
    ghost use Rattle.foresight.specs.Ahead.{AheadState};
    ghost use Rattle.operating.specs.GameAndBoard.{IsLaidOut};
    ghost use Rattle.sheets.specs.File.{players_of};

    ghost Value = { AheadState };

    ghost view = { λ ahead. record {
      file = ahead.draft.sheets.now;
      drafter = ahead.draft.drafter;
      round = ahead.round;
      game = ahead.game.history;
    } };

    ghost invariant = { λ ahead. IsLaidOut ahead.game
        × (ahead.game.history.seats ≡ length (players_of ahead.draft.sheets.now)) };
}

impl<'a> RoundAhead<'a> {
    /// Opens a coming operating round: the standing lines of the sheet that is looked at are ruled,
    /// and the privates pay. The list of events must be sound, and its seats those of the sheets'
    /// players. Fails only if allocation fails.
    pub fn open(
        alloc: Global,
        history: History,
        draft: Draft<'a>,
        round: Round,
    ) -> Result<RoundAhead<'a>, AllocError>
        requires sound { IsSound history }
        requires seats { history.seats ≡ length (players_of draft.sheets.now) }
        ensures { IfOk result (λ ahead. ahead
            ≡ opened_state draft.entry.sheets.now draft.entry.drafter round history) }
    {
        let mut history = history;
        draft.open(&mut history, round)?;
        let game = GameAndBoard::lay_out(alloc, history)?;
        Ok(RoundAhead {
            alloc,
            draft,
            round,
            game,
        })
    }

    /// Returns the game so far.
    pub fn history(&self) -> &History
        ensures game { result.now ≡ self.now.game }
        ensures sound { IsSound self.now.game }
    {
        &self.game.history
    }

    /// Returns the company whose turn is next; `None` once each has had one, or a president is
    /// bankrupt.
    pub fn next_company(&self) -> Option<Company>
        ensures { result ≡ next_company self.now.game.events }
    {
        next_company(&self.game.history)
    }

    /// Returns whether a seat presides over a company.
    pub fn is_led_by(&self, company: Company, seat: Seat) -> bool
        ensures { result ≡ is_president (president_of self.now.game.events company) seat }
    {
        is_president(self.game.history.now().president(company), seat)
    }

    /// Plays the turn of the next company, with the orders of the sheet that is looked at, if that
    /// is its president's. Fails only if allocation fails.
    pub fn take_turn(self, company: Company) -> Result<RoundAhead<'a>, AllocError>
        requires { next_company self.game.events ≡ Some company }
        ensures { IfOk result (HasTurn company self.entry) }
    {
        // For the proof only: by the first law the next company has floated; by the second the
        // seats are at most six.
        market::laws::floated_companies_in_order();
        let _few = self.draft.sheets.seats();
        let RoundAhead {
            alloc,
            draft,
            round,
            game,
        } = self;
        let game = if draft.has_orders(&game.history, company) {
            played(alloc, game, draft, round, company)?
        } else {
            pass_turn(alloc, game, round, company)?
        };
        Ok(RoundAhead {
            alloc,
            draft,
            round,
            game,
        })
    }

    /// Returns the turn of the next company after the orders of the sheet that is looked at, or at
    /// the head of its orders if that is not its president's. Fails only if allocation fails.
    pub fn turn_of(self, by: Operator) -> Result<OrdersAhead<'a>, AllocError>
        requires next { next_company self.game.events ≡ Some by.company }
        requires led { is_president (president_of self.game.events by.company) by.president
            ≡ true }
        ensures { IfOk result (IsBehindDraft self.entry by) }
    {
        market::laws::floated_companies_in_order();
        let _few = self.draft.sheets.seats();
        let RoundAhead {
            alloc,
            draft,
            round,
            game,
        } = self;
        let mut turn = begin_turn(alloc, game, round, by)?;
        let raises = draft.rule_orders(alloc, &mut turn)?;
        Ok(OrdersAhead {
            alloc,
            draft,
            round,
            turn,
            raises,
        })
    }

    /// Plays on to the orders of a company. Returns what becomes of it. Fails only if allocation
    /// fails.
    pub fn orders_of(self, company: Company) -> Result<Ahead<'a>, AllocError>
        ensures { IfOk result (IsAhead company self.entry) }
    {
        // Laws, which do nothing when they run: they show that the loop ends.
        market::laws::floated_companies_in_order();
        operating::laws::company_operates();
        let mut ahead = self;
        while let Some(next) = ahead.next_company() {
            if next == company {
                return ahead.led(company);
            }
            ahead = ahead.take_turn(next)?;
        }
        Ok(Ahead::NoTurn)
    }

    /// Returns what becomes of the next company.
    fn led(self, company: Company) -> Result<Ahead<'a>, AllocError>
        requires { next_company self.game.events ≡ Some company }
        ensures { IfOk result (IsLed company self.entry) }
    {
        let Some(president) = self.game.history.now().president(company) else {
            return Ok(Ahead::NoPresident);
        };
        let by = Operator { company, president };
        Ok(Ahead::AtOrders(self.turn_of(by)?))
    }
}

/// Plays the turn of a company with the orders of its president's sheet. Fails only if allocation
/// fails.
fn played(
    alloc: Global,
    game: GameAndBoard,
    draft: Draft,
    round: Round,
    company: Company,
) -> Result<GameAndBoard, AllocError>
    requires floated { is_floated game.history.events company ≡ true }
    requires laid { IsLaidOut game }
    requires seats { game.history.seats ≡ length (players_of draft.sheets.now) }
    ensures turn { IfOk result (λ next.
        IsCompanyTurn draft.entry.sheets.now round company game.history next.history) }
    ensures seats { IfOk result (λ next. next.history.seats ≡ game.history.seats) }
    ensures laid { IfOk result IsLaidOut }
{
    let mut search = Search::new(alloc);
    match play_on(alloc, game, draft.sheets, round, company, &mut search) {
        Ok(game) => Ok(game),
        // An allocation failed: passed on.
        Err(RunnerFault::Memory | RunnerFault::Refused) => Err(AllocError),
    }
}

/// What becomes of a company in a coming operating round.
#[derive(Drop)]
pub enum Ahead<'a> {
    /// It is at the start of its orders, or after those that are looked at.
    AtOrders(OrdersAhead<'a>),
    /// It has a turn, but no president to give its orders.
    NoPresident,
    /// It has no turn: it does not operate, or the game ends before.
    NoTurn,
}
