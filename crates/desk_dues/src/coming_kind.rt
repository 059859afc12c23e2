//! The kind of train that comes next, and what its first train brings.
ghost use Rattle.std.specs.Prelude.{◌≡◌, ◌^◌, ◌≤ℤ◌, neg_ℤ, pos};
ghost use Rattle.desk_dues.specs.NextKind.{colour_opened_by, discarded_with, is_one_open, kind_after, left_before};
ghost use Rattle.desk_dues.specs.NextKind.{kept_with, next_kind_in, next_kind_of, rusted_with, rusting_held};
ghost use Rattle.totals.specs.LookBack.{IsModerate};

use history::{History, TrainCount, at_least_zero};
use map_tables::Colour;
use tables::{Amount, Company, Kind, Money, Private, limit, rounds_in_set, train};

/// What the first train of the next kind brings.
#[derive(Clone, Copy, Debug, PartialEq, Eq)]
pub struct NextKind {
    /// The kind, of which the bank has sold none.
    pub kind: Kind,
    /// What a train of it costs at the bank, in dollars.
    pub price: Amount,
    /// The kind whose trains rust.
    pub rusts: Option<Kind>,
    /// How many trains a company may have until then.
    pub limit_before: usize,
    /// How many trains a company may have from then on.
    pub limit: usize,
    /// The colour of the tiles that may be laid from then on.
    pub opens: Option<Colour>,
    /// Whether privates close.
    pub closes: bool,
    /// Whether companies may buy privates from then on.
    pub sells_privates: bool,
    /// How many operating rounds a set has that begins before.
    pub rounds_before: u8,
    /// How many operating rounds a set has that begins after it.
    pub rounds: u8,
}

/// Returns what the first train of the next kind brings; `None` in the phase of the D, after which
/// no kind comes.
pub fn next_kind(history: &History) -> Option<NextKind>
    ensures { result ≡ next_kind_of history.now.events }
{
    let phase = history.phase();
    match kind_after(phase) {
        Some(kind) => Some(next_kind_in(history, phase, kind)),
        None => None,
    }
}

/// Returns the kind that comes after a kind.
fn kind_after(kind: Kind) -> Option<Kind>
    ensures { result ≡ kind_after kind }
{
    match kind {
        Kind::Two => Some(Kind::Three),
        Kind::Three => Some(Kind::Four),
        Kind::Four => Some(Kind::Five),
        Kind::Five => Some(Kind::Six),
        Kind::Six => Some(Kind::Diesel),
        Kind::Diesel => None,
    }
}

/// Returns what the first train of a kind brings, in a phase.
fn next_kind_in(history: &History, phase: Kind, kind: Kind) -> NextKind
    ensures { result ≡ next_kind_in history.now.events phase kind }
{
    NextKind {
        kind,
        price: train(kind).price,
        rusts: rusted_with(kind),
        limit_before: limit(phase),
        limit: limit(kind),
        opens: colour_opened_by(kind),
        closes: kind == Kind::Five && is_one_open(history),
        sells_privates: kind == Kind::Three && is_one_open(history),
        rounds_before: rounds_in_set(phase),
        rounds: rounds_in_set(kind),
    }
}

/// Returns the kind whose trains rust with the first train of a kind.
fn rusted_with(kind: Kind) -> Option<Kind>
    ensures { result ≡ rusted_with kind }
{
    match kind {
        Kind::Four => Some(Kind::Two),
        Kind::Six => Some(Kind::Three),
        Kind::Diesel => Some(Kind::Four),
        Kind::Two | Kind::Three | Kind::Five => None,
    }
}

/// Returns the colour of the tiles that may be laid from the first train of a kind on.
fn colour_opened_by(kind: Kind) -> Option<Colour>
    ensures { result ≡ colour_opened_by kind }
{
    match kind {
        Kind::Three => Some(Colour::Green),
        Kind::Five => Some(Colour::Brown),
        Kind::Two | Kind::Four | Kind::Six | Kind::Diesel => None,
    }
}

/// Returns whether some private is open.
fn is_one_open(history: &History) -> bool
    ensures { result ≡ is_one_open history.now.events }
{
    Private::ALL
        .iter()
        .any(|private| history.owner(*private).is_some())
}

/// Returns how many trains of a kind the bank sells before it sells the first of a later kind: all
/// that it has left, but of the 6 only the first before a D.
pub fn left_before(history: &History, new: Kind, kind: Kind) -> usize
    ensures { result ≡ left_before history.now.events new kind }
{
    if kind.index() >= new.index() {
        return 0;
    }
    let sold = history.now().trains_sold(kind);
    if new == Kind::Diesel && kind == Kind::Six {
        return 1usize.saturating_sub(sold);
    }
    match train(kind).number {
        Some(number) => usize::from(number).saturating_sub(sold),
        None => 0,
    }
}

/// Returns how many trains a company has to discard with the first train of a kind: those over the
/// limit of its phase, once others have rusted.
pub fn discarded_with(history: &History, company: Company, new: Kind) -> u128
    ensures { result ≡ discarded_with history.now.events company new }
{
    at_least_zero(kept_with(history, company, new) - limit(new) as Money)
}

/// Returns how many trains a company has once those have rusted that rust with the first train of a
/// kind.
fn kept_with(history: &History, company: Company, new: Kind) -> Money
    ensures value { result ≡ kept_with history.now.events company new }
    ensures not_under { neg_ℤ (pos (2 ^ 101)) ≤ℤ result }
    ensures not_over { result ≤ℤ pos (2 ^ 101) }
{
    Money::from(history.now().train_count(Some(company)))
        - Money::from(rusting_held(history, company, rusted_with(new)))
}

/// Returns how many trains a company has that rust, if a kind does.
fn rusting_held(history: &History, company: Company, kind: Option<Kind>) -> TrainCount
    ensures held { result ≡ rusting_held history.now.events company kind }
    ensures within { IsModerate result }
{
    match kind {
        Some(kind) => history.trains(Some(company), kind),
        None => 0,
    }
}
