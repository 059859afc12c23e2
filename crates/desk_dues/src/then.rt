//! The train that a company without one must buy once the first train of a kind has been sold.
ghost use Rattle.std.specs.Prelude.{◌≡◌, find};
ghost use Rattle.desk_dues.specs.Then.{are_gone_with, cheapest_then, is_cheaper_then, is_pooled_then, least_then};
ghost use Rattle.purchases.specs.Train.{is_left};

use history::History;
use tables::{Kind, rusts, train};

/// Returns the cheapest train that the bank or the pool sells then.
#[tactic(auto, unfolding(crate::specs::Then::cheapest_then))]
pub(crate) fn cheapest_then(history: &History, new: Kind) -> Kind
    ensures { result ≡ cheapest_then history.now.events new }
{
    match first_cheaper(history, new, &Kind::ALL) {
        Some(kind) => kind,
        None => least_then(history, new),
    }
}

/// Returns the first of some kinds of which the pool has a train then that is cheaper than those of
/// the bank.
fn first_cheaper(history: &History, new: Kind, among: &[Kind]) -> Option<Kind>
    ensures { result ≡ find (is_cheaper_then history.now.events new) among.now }
{
    among
        .iter()
        .copied()
        .find(|kind| is_cheaper_then(history, new, *kind))
}

/// Returns the lowest kind that the bank sells then.
pub(crate) fn least_then(history: &History, new: Kind) -> Kind
    ensures { result ≡ least_then history.now.events new }
{
    if new == Kind::Diesel && is_left(history, Kind::Six) {
        Kind::Six
    } else {
        new
    }
}

/// Returns whether the bank has trains of a kind left.
fn is_left(history: &History, kind: Kind) -> bool
    ensures { result ≡ is_left history.now.events kind }
{
    match train(kind).number {
        None => true,
        Some(number) => history.now().trains_sold(kind) < usize::from(number),
    }
}

/// Returns whether the pool has a train of a kind then that is cheaper than those of the bank.
#[tactic(auto, unfolding(crate::specs::Then::is_cheaper_then))]
fn is_cheaper_then(history: &History, new: Kind, kind: Kind) -> bool
    ensures { result ≡ is_cheaper_then history.now.events new kind }
{
    kind.index() < least_then(history, new).index() && is_pooled_then(history, new, kind)
}

/// Returns whether the pool has a train of a kind then.
fn is_pooled_then(history: &History, new: Kind, kind: Kind) -> bool
    ensures { result ≡ is_pooled_then history.now.events new kind }
{
    history.trains(None, kind) > 0 && !are_gone_with(new, rusts(kind))
}

/// Returns whether trains that rust with the first train of this kind, if with any, are gone with
/// the first of another.
fn are_gone_with(new: Kind, rusting: Option<Kind>) -> bool
    ensures { result ≡ are_gone_with new rusting }
{
    match rusting {
        Some(kind) => new.index() >= kind.index(),
        None => false,
    }
}
