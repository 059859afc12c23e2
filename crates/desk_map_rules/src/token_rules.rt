//! The rules that a token breaks.
ghost use Rattle.std.specs.Prelude.{◌≡◌, IfOk};
ghost use Rattle.board.specs.Powers.{owns_private};
ghost use Rattle.desk_map_rules.specs.LayAsked.{TokenBroken, is_unreached_token, token_asker, token_broken_by};
ghost use Rattle.events.specs.declared.ruling.Refusal.TheVariants as refusal;
ghost use Rattle.operating.specs.MapState.{map_state_now};
ghost use Rattle.tables.specs.declared.roster.Private.TheVariants.{DelawareHudson};

use crate::asker::asker_at;
use crate::map_tests::{has_none_left, has_token_in, is_no_free_slot, token_cost};
use crate::row::{Row, rules_of};
use board::{Asker, Board, TokenFault};
use history::{GameView, Refusal, TokenRule};
use map_tables::Place;
use std::alloc::{AllocError, Global};
use tables::{Company, Money, Private};

/// Returns the rules that a token of a company breaks, apart from that of its step. The board is
/// that of the game. Fails only if allocation fails.
pub(crate) fn token_broken(
    alloc: Global,
    board: &Board,
    view: &GameView,
    company: Company,
    place: Place,
) -> Result<Vec<Refusal>, AllocError>
    requires same { board.now ≡ map_state_now view.now.events }
    ensures { let asker = token_asker view.now company in
        IfOk result (λ rules. TokenBroken board.now asker place rules.items) }
{
    token_broken_for(alloc, board, view, &token_asker(view, company), place)
}

/// Returns a company as it asks for a token: if it owns DH, as if DH's lay were made.
fn token_asker(view: &GameView, company: Company) -> Asker
    ensures { result ≡ token_asker view.now company }
{
    let asker = asker_at(view, company);
    let dh_laid = owns_delaware(&asker);
    Asker { dh_laid, ..asker }
}

/// Returns whether the company that asks owns DH.
fn owns_delaware(asker: &Asker) -> bool
    ensures { result ≡ owns_private asker.now DelawareHudson }
{
    asker.own_privates[Private::DelawareHudson.index()]
}

/// Returns the rules that a token breaks for a company that asks.
#[tactic(auto, using(crate::proofs::Answered::token_answered, crate::proofs::Answered::token_refused))]
fn token_broken_for(
    alloc: Global,
    board: &Board,
    view: &GameView,
    asker: &Asker,
    place: Place,
) -> Result<Vec<Refusal>, AllocError>
    requires same { board.now ≡ map_state_now view.now.events }
    ensures { IfOk result (λ rules. TokenBroken board.now asker.now place rules.items) }
{
    match board.try_token(asker, place) {
        Ok(_) => token_rows(alloc, board, view, asker, place, false),
        Err(TokenFault::Rule(rule)) => {
            token_rows(alloc, board, view, asker, place, is_unreached_token(rule))
        }
        Err(TokenFault::Memory(error)) => Err(error),
    }
}

/// Returns whether a rule says that the stop is not reached.
fn is_unreached_token(rule: TokenRule) -> bool
    ensures { result ≡ is_unreached_token rule }
{
    matches!(rule, TokenRule::NotReached)
}

/// Returns the rules that a token breaks, given whether the umpire finds that the stop is not
/// reached.
fn token_rows(
    alloc: Global,
    board: &Board,
    view: &GameView,
    asker: &Asker,
    place: Place,
    unreached: bool,
) -> Result<Vec<Refusal>, AllocError>
    requires same { board.now ≡ map_state_now view.now.events }
    ensures { IfOk result (λ rules.
        rules.items ≡ token_broken_by board.now asker.now place unreached) }
{
    let company = asker.company;
    let cost = Money::from(token_cost(view, asker, place.hex));
    let rows = [
        of_token(TokenRule::NoTokenLeft, has_none_left(view, company)),
        of_token(TokenRule::NoFreeSlot, is_no_free_slot(board, place)),
        of_token(
            TokenRule::InHexAlready,
            has_token_in(view, place.hex, company),
        ),
        of_token(TokenRule::NotReached, unreached),
        of_token(TokenRule::CashTooSmall, asker.cash < cost),
    ];
    rules_of(alloc, &rows)
}

/// Returns a row of a rule of tokens.
fn of_token(rule: TokenRule, is_broken: bool) -> Row
    ensures { result ≡ record { rule = refusal.Token rule; is_broken = is_broken } }
{
    Row {
        rule: Refusal::Token(rule),
        is_broken,
    }
}
