//! Which broken rules others can mend.
ghost use Rattle.std.specs.Prelude.{◌≡◌, IfOk};
ghost use Rattle.desk_mending.specs.Mending.{bests_stay, is_ruled_first, lays_stay, others_can_mend, pays_stay};
ghost use Rattle.desk_mending.specs.Mending.{play_stays, privates_stay, runs_stay, tokens_stay, trains_stay};
ghost use Rattle.operating.specs.MapState.{map_state_now};

use crate::company_stays::{private_stays, train_stays};
use crate::map_stays::{best_stays, lay_stays, pay_stays, run_stays, token_stays};
use crate::opening_stays::opening_stays;
use crate::stock_stays::{is_never_of_stock, stock_stays};
use crate::written::Written;
use board::Board;
use desk_rules::purchase_of;
use history::{GameView, LayRule, PrivateRule, Refusal, RunRule, TokenRule, TrainRule};
use map_tables::Place;
use order_grammar::{Order, PlayOrder};
use std::alloc::{AllocError, Global};
use tables::{Company, Kind, Seat};

/// Returns whether the other players may mend a rule that an order of a seat breaks, by what they
/// order before it in its round. `false` only if nothing that they may order makes the rule hold.
/// The game is given as the round begins, once the privates have paid, with its board; the order is
/// among those for this company, if there is one. Fails only if allocation fails.
pub fn others_can_mend(
    alloc: Global,
    start: &GameView,
    board: &Board,
    seat: Seat,
    written: &Written,
    company: Option<Company>,
    order: &Order,
    rule: Refusal,
) -> Result<bool, AllocError>
    requires same { board.now ≡ map_state_now start.now.events }
    ensures { let written = written.now in
        IfOk result (λ mend. mend ≡ others_can_mend start.now seat written.above.now
        written.sheet.now written.turn company order.now rule) }
{
    let stays = match order {
        Order::Play(order) => play_stays(start, board, seat, written, company, *order, rule),
        Order::Run { kind, run } => {
            runs_stay(
                alloc,
                start,
                board,
                written,
                company,
                *kind,
                run.as_slice(),
                rule,
            )?
        }
        _ => false,
    };
    Ok(!stays)
}

/// Returns whether an order of play breaks a rule whatever others do.
fn play_stays(
    start: &GameView,
    board: &Board,
    seat: Seat,
    written: &Written,
    company: Option<Company>,
    order: PlayOrder,
    rule: Refusal,
) -> bool
    requires same { board.now ≡ map_state_now start.now.events }
    ensures { result ≡ play_stays start.now seat written.now.above.now
        written.now.sheet.now written.now.turn company order rule }
{
    match rule {
        Refusal::Opening(rule) => opening_stays(start, seat, order, rule),
        Refusal::Stock(rule) => stock_stays(start, seat, written, order, rule),
        Refusal::Lay(rule) => lays_stay(start, board, written, company, order, rule),
        Refusal::Token(rule) => tokens_stay(start, board, written, company, order, rule),
        Refusal::Run(rule) => bests_stay(start, company, order, rule),
        Refusal::Pay(_) => pays_stay(start, company, order),
        Refusal::Train(rule) => trains_stay(start, written, company, order, rule),
        Refusal::Private(rule) => privates_stay(start, company, order, rule),
        Refusal::Condition => false,
    }
}

/// Returns whether a run breaks a rule whatever others do. Fails only if allocation fails.
fn runs_stay(
    alloc: Global,
    start: &GameView,
    board: &Board,
    written: &Written,
    company: Option<Company>,
    kind: Kind,
    places: &[Place],
    rule: Refusal,
) -> Result<bool, AllocError>
    requires same { board.now ≡ map_state_now start.now.events }
    ensures { IfOk result (λ stays. stays
        ≡ runs_stay start.now written.now.sheet.now company kind places.now rule) }
{
    match rule {
        Refusal::Run(rule) => match company {
            Some(company) => {
                run_stays(alloc, start, board, written, company, kind, places, rule)
            }
            None => Ok(false),
        },
        Refusal::Stock(rule) => Ok(is_never_of_stock(rule)),
        _ => Ok(false),
    }
}

/// Returns whether a rule of lays is broken whatever others do.
fn lays_stay(
    start: &GameView,
    board: &Board,
    written: &Written,
    company: Option<Company>,
    order: PlayOrder,
    rule: LayRule,
) -> bool
    requires same { board.now ≡ map_state_now start.now.events }
    ensures { result ≡ lays_stay start.now written.now.sheet.now company order rule }
{
    match (company, order) {
        (Some(company), PlayOrder::Lay(lay)) => {
            lay_stays(start, board, written, company, lay, rule)
        }
        _ => false,
    }
}

/// Returns whether a rule of tokens is broken whatever others do.
fn tokens_stay(
    start: &GameView,
    board: &Board,
    written: &Written,
    company: Option<Company>,
    order: PlayOrder,
    rule: TokenRule,
) -> bool
    requires same { board.now ≡ map_state_now start.now.events }
    ensures { result ≡ tokens_stay start.now written.now.sheet.now company order rule }
{
    match (company, order) {
        (Some(company), PlayOrder::Token(place)) => {
            token_stays(start, board, written, company, place, rule)
        }
        _ => false,
    }
}

/// Returns whether a rule of runs is broken by a RUN BEST whatever others do.
fn bests_stay(start: &GameView, company: Option<Company>, order: PlayOrder, rule: RunRule) -> bool
    ensures { result ≡ bests_stay start.now.events company order rule }
{
    match (company, order) {
        (Some(company), PlayOrder::RunBest) => best_stays(start, company, rule),
        _ => false,
    }
}

/// Returns whether a PAY has nothing to pay whatever others do.
fn pays_stay(start: &GameView, company: Option<Company>, order: PlayOrder) -> bool
    ensures { result ≡ pays_stay start.now.events company order }
{
    match (company, order) {
        (Some(company), PlayOrder::Pay) => pay_stays(start, company),
        _ => false,
    }
}

/// Returns whether an order is ruled as an operating round begins, before those of other kinds.
fn is_ruled_first(order: PlayOrder) -> bool
    ensures { result ≡ is_ruled_first order }
{
    matches!(order, PlayOrder::Offer(_) | PlayOrder::Discard { .. })
}

/// Returns whether a rule of trains is broken whatever others do.
fn trains_stay(
    start: &GameView,
    written: &Written,
    company: Option<Company>,
    order: PlayOrder,
    rule: TrainRule,
) -> bool
    ensures { result ≡ trains_stay start.now written.now.sheet.now company order rule }
{
    match (company, order) {
        (Some(company), PlayOrder::BuyTrain { kind, from }) => {
            train_stays(start, written, company, purchase_of(kind, from), rule)
        }
        _ => is_ruled_first(order),
    }
}

/// Returns whether a rule of privates is broken whatever others do.
fn privates_stay(
    start: &GameView,
    company: Option<Company>,
    order: PlayOrder,
    rule: PrivateRule,
) -> bool
    ensures { result ≡ privates_stay start.now company order rule }
{
    match (company, order) {
        (Some(company), PlayOrder::BuyOwnedPrivate { private, price }) => {
            private_stays(start, company, private, price, rule)
        }
        _ => is_ruled_first(order),
    }
}
