//! Which limits of shares and certificates stay broken whatever the other players sell.
ghost use Rattle.std.specs.Prelude.{◌≡◌, ◌≤◌, ◌≤ℤ◌, ◌^◌, neg_ℤ, pos};
ghost use Rattle.std.specs.List.{list_all};
ghost use Rattle.certs.specs.Purchase.{lifts_six};
ghost use Rattle.desk_mending.specs.Stays.{all_count_still, certificates_stay, has_full_hand, is_coloured, limit_stays};
ghost use Rattle.desk_mending.specs.Stays.{may_reach, not_theirs, others_at, reaches_from, rows_fallen, six_stays};
ghost use Rattle.desk_mending.specs.Stays.{sold_most, still_counts};
ghost use Rattle.tables.specs.Roster.{companies};

use crate::written::{Written, any_lessens, any_sells_of};
use certs::{Purchase, counted_now};
use history::{GameView, ShareCount, Shareholder, at_least_zero};
use market::fall;
use tables::{Company, Seat, Square, Zone, certificate_limit, zone};

/// How many shares a president has at least.
const PRESIDENT_LEAST: ShareCount = 2;

/// Returns whether a purchase of so many shares of a company breaks the limit of six shares
/// whatever others do.
pub(crate) fn six_stays(
    start: &GameView,
    seat: Seat,
    written: &Written,
    company: Company,
    shares: u8,
) -> bool
    ensures { result ≡ six_stays start.now seat written.now.above.now written.now.turn
        company shares }
{
    let held = start.shares(company, Shareholder::Seat(seat)) + ShareCount::from(shares);
    held > SIX
        && !any_sells_of(company, written.above)
        && !may_lift_six(start, seat, written.turn, company)
}

/// The most shares of a company that a seat may hold, unless a zone lifts the limit.
const SIX: ShareCount = 6;

/// Returns whether the certificate limit stays reached for a purchase whatever others do.
pub(crate) fn limit_stays(
    start: &GameView,
    seat: Seat,
    written: &Written,
    purchase: Purchase,
) -> bool
    ensures { result ≡ limit_stays start.now seat written.now.above.now written.now.turn
        purchase }
{
    has_full_hand(start, seat)
        && !any_lessens(written.above)
        && all_count_still(start, seat, written.turn, purchase)
}

/// Returns whether as many certificates of a seat count as may.
fn has_full_hand(start: &GameView, seat: Seat) -> bool
    ensures { result ≡ has_full_hand start.now seat }
{
    counted_now(start, seat) >= certificate_limit(start.seats()) as ShareCount
}

/// Returns whether none of the certificates of a seat that count can come not to count, and one
/// that it buys counts.
fn all_count_still(start: &GameView, seat: Seat, turn: u32, purchase: Purchase) -> bool
    ensures { result ≡ all_count_still start.now seat turn purchase }
{
    all_stay(start, seat, turn) && still_counts(start, seat, turn, purchase)
}

/// Returns whether the certificates of each company that a seat has and that count stay as many.
fn all_stay(start: &GameView, seat: Seat, turn: u32) -> bool
    ensures { result ≡ list_all (certificates_stay start.now seat turn) companies }
{
    Company::ALL
        .iter()
        .all(|company| certificates_stay(start, seat, turn, *company))
}

/// Returns whether the certificates of a company that a seat has and that count stay as many.
fn certificates_stay(start: &GameView, seat: Seat, turn: u32, company: Company) -> bool
    ensures { result ≡ certificates_stay start.now seat turn company }
{
    let held = start.shares(company, Shareholder::Seat(seat));
    held < 1
        || (!may_be_coloured(start, seat, turn, company)
            && (start.president(company) == Some(seat) || held < PRESIDENT_LEAST))
}

/// Returns whether a certificate that is bought counts whatever others sell.
fn still_counts(start: &GameView, seat: Seat, turn: u32, purchase: Purchase) -> bool
    ensures { result ≡ still_counts start.now seat turn purchase }
{
    match purchase {
        Purchase::Par { .. } => true,
        Purchase::Share { company, .. } => !may_be_coloured(start, seat, turn, company),
    }
}

/// Returns the shares of a company that are not the other players'.
fn not_theirs(start: &GameView, seat: Seat, company: Company) -> ShareCount
    ensures shares { result ≡ not_theirs start.now.events seat company }
    ensures not_under { neg_ℤ (pos (2 ^ 102)) ≤ℤ result }
    ensures not_over { result ≤ℤ pos (2 ^ 102) }
{
    start.shares(company, Shareholder::InitialOffering)
        + start.shares(company, Shareholder::BankPool)
        + start.shares(company, Shareholder::Seat(seat))
}

/// Returns how many other players there are at a table of this many.
fn others_at(seats: usize) -> u64
    ensures others { result ≡ others_at seats }
    ensures few { result ≤ 5 }
{
    match seats {
        3 => 2,
        4 => 3,
        5 => 4,
        _ => 5,
    }
}

/// Returns the most shares of a company that the other players may sell before a line of a turn.
fn sold_most(start: &GameView, seat: Seat, turn: u32, company: Company) -> u128
    ensures { result ≡ sold_most start.now seat turn company }
{
    let most = others_at(start.seats()) * u64::from(turn) + 11;
    at_least_zero(ShareCount::from(most) - not_theirs(start, seat, company))
}

/// Returns how many rows a token falls if so many shares are sold.
fn rows_fallen(sold: u128) -> u8
    ensures { result ≡ rows_fallen sold }
{
    if sold < ROWS_MOST { sold as u8 } else { 10 }
}

/// How many rows a token may fall: the chart has eleven.
const ROWS_MOST: u128 = 10;

/// Returns whether the token of a company may come into a zone that lifts the limit of six shares.
fn may_lift_six(start: &GameView, seat: Seat, turn: u32, company: Company) -> bool
    ensures { result ≡ may_reach lifts_six start.now seat turn company }
{
    lifts_from(start.square(company), sold_most(start, seat, turn, company))
}

/// Returns whether a token may come into such a zone from a square, if so many shares are sold.
fn lifts_from(square: Option<Square>, sold: u128) -> bool
    ensures { result ≡ reaches_from lifts_six sold square }
{
    match square {
        None => true,
        Some(square) => lifts_six(zone(fall(square, rows_fallen(sold)))),
    }
}

/// Returns whether a zone lifts the limit of six shares.
fn lifts_six(zone: Zone) -> bool
    ensures { result ≡ lifts_six zone }
{
    matches!(zone, Zone::Orange | Zone::Brown)
}

/// Returns whether the token of a company may come into a coloured zone.
fn may_be_coloured(start: &GameView, seat: Seat, turn: u32, company: Company) -> bool
    ensures { result ≡ may_reach is_coloured start.now seat turn company }
{
    coloured_from(start.square(company), sold_most(start, seat, turn, company))
}

/// Returns whether a token may come into such a zone from a square, if so many shares are sold.
fn coloured_from(square: Option<Square>, sold: u128) -> bool
    ensures { result ≡ reaches_from is_coloured sold square }
{
    match square {
        None => true,
        Some(square) => is_coloured(zone(fall(square, rows_fallen(sold)))),
    }
}

/// Returns whether a zone is coloured.
fn is_coloured(zone: Zone) -> bool
    ensures { result ≡ is_coloured zone }
{
    !matches!(zone, Zone::White)
}
