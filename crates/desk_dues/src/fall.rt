//! The next kind of train whose first sale takes trains from companies.
ghost use Rattle.std.specs.Prelude.{◌≡◌, find};
ghost use Rattle.desk_dues.specs.Fall.{is_held, is_to_come, next_fall_of};

use history::History;
use tables::{Company, Kind};

/// The first sale of a kind, with which the trains of another rust.
#[derive(Clone, Copy, Debug, PartialEq, Eq)]
pub struct Fall {
    /// The kind whose trains rust.
    pub kind: Kind,
    /// The kind whose first train rusts them.
    pub falls_with: Kind,
}

/// The three times that trains rust, in order.
const FALLS: [Fall; 3] = [
    Fall {
        kind: Kind::Two,
        falls_with: Kind::Four,
    },
    Fall {
        kind: Kind::Three,
        falls_with: Kind::Six,
    },
    Fall {
        kind: Kind::Four,
        falls_with: Kind::Diesel,
    },
];

/// Returns the next time that trains of companies rust; `None` if no company has a train that
/// rusts.
#[tactic(auto, unfolding(crate::specs::Fall::next_fall_of))]
pub fn next_fall(history: &History) -> Option<Fall>
    ensures { result ≡ next_fall_of history.now.events }
{
    first_to_come(history, &FALLS)
}

/// Returns the first of some falls that is still to come and takes a train from some company.
fn first_to_come(history: &History, among: &[Fall]) -> Option<Fall>
    ensures { result ≡ find (is_to_come history.now.events) among.now }
{
    among
        .iter()
        .copied()
        .find(|fall| is_to_come(history, *fall))
}

/// Returns whether a fall is still to come, and takes a train from some company.
#[tactic(auto, unfolding(crate::specs::Fall::is_to_come))]
fn is_to_come(history: &History, fall: Fall) -> bool
    ensures { result ≡ is_to_come history.now.events fall }
{
    history.phase().index() < fall.falls_with.index() && is_held(history, fall.kind)
}

/// Returns whether some company has a train of a kind.
fn is_held(history: &History, kind: Kind) -> bool
    ensures { result ≡ is_held history.now.events kind }
{
    Company::ALL
        .iter()
        .any(|company| history.trains(Some(*company), kind) > 0)
}
