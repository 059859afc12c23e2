//! The contents of the slots of cities, and the privates of hexes.
ghost use Rattle.std.specs.Prelude.{◌≡◌, ◌<◌, ◌≤◌, ◌+◌, ◌++◌, length};
ghost use Rattle.page_map.specs.TokensShown.{marker_of, token_there, tokens_there};

use crate::news::placed_in_last_round;
use arrayvec::ArrayVec;
use board_state::{same_hex, same_stop};
use desk_base::has_token;
use history::History;
use map_tables::{Hex, Stop, StopNumber, home, private_hexes};
use picture::Marker;
use tables::{COMPANIES, Company, Private};

/// Returns whether a slot of a stop is reserved for a company's home token that is not placed yet.
pub(crate) fn is_kept(history: &History, stop: Stop, company: Company) -> bool {
    history.now().tokens_placed(company) == 0 && same_stop(home(company), stop)
}

/// Returns the contents of the slots of a hex's stops, this many each: first the tokens on the
/// board, in roster order, and last the reserved slots.
pub(crate) fn markers_in(history: &History, hex: Hex, slots: u8) -> [[Marker; 2]; 2] {
    if slots == 0 {
        return [[Marker::Free; 2]; 2];
    }
    [
        markers_at(
            history,
            Stop {
                hex,
                number: StopNumber::First,
            },
            slots,
        ),
        markers_at(
            history,
            Stop {
                hex,
                number: StopNumber::Second,
            },
            slots,
        ),
    ]
}

/// Returns the contents of the slots of a stop.
fn markers_at(history: &History, stop: Stop, slots: u8) -> [Marker; 2] {
    let mut markers = [Marker::Free, Marker::Free];
    let tokens = tokens_at(history, stop);
    for (marker, company) in markers.iter_mut().zip(tokens.as_slice()) {
        *marker = marker_of(history, stop, *company);
    }
    let last = if slots > 1 { 1 } else { 0 };
    for &company in &Company::ALL {
        if tokens.len() <= last && is_kept(history, stop, company) {
            markers[last] = Marker::Kept(company);
        }
    }
    markers
}

/// Returns the token of a company at a stop, marked as new if it was placed in the last round.
fn marker_of(history: &History, stop: Stop, company: Company) -> Marker
    ensures { result ≡ marker_of history.now.events stop company }
{
    if placed_in_last_round(history.events(), stop, company) {
        Marker::NewToken(company)
    } else {
        Marker::Token(company)
    }
}

/// Returns the companies that have a token at a stop, in the order of the roster.
pub(crate) fn tokens_at(history: &History, stop: Stop) -> ArrayVec<Company, COMPANIES>
    ensures { result.items ≡ tokens_there history.now.events stop }
{
    let mut tokens = ArrayVec::new();
    for company in &Company::ALL {
        add_token(&mut tokens, history, stop, *company);
    }
    tokens
}

/// Adds a company, if it has a token at a stop.
fn add_token(
    tokens: &mut ArrayVec<Company, COMPANIES>,
    history: &History,
    stop: Stop,
    company: Company,
)
    requires { length tokens.old.items < 8 }
    ensures added { tokens.new.items
        ≡ tokens.old.items ++ token_there history.now.events stop company }
    ensures few { length tokens.new.items ≤ length tokens.old.items + 1 }
{
    if has_token(history, stop, company) {
        tokens.push(company);
    }
}

/// Returns whether a hex belongs to a private.
pub(crate) fn private_in(private: Private, hex: Hex) -> bool {
    for its in private_hexes(private) {
        if same_hex(*its, hex) {
            return true;
        }
    }
    false
}
