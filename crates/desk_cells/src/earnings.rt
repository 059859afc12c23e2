//! What a company earned in the last round in which it operated.
ghost use Rattle.std.specs.Prelude.{◌≡◌, ◌+◌, ◌^◌, ◌≤◌, ◌<◌};
ghost use Rattle.desk_cells.specs.Earnings.{earned_by, earnings_of, with_round, with_sum};

use history::Event;
use tables::{Amount, Company, Round};

/// What a company earned, in the last of the rounds so far in which it operated.
#[derive(Clone, Copy)]
pub struct Earnings {
    /// That round; `None` if it has never operated.
    pub round: Option<Round>,
    /// What its runs earned in it, in dollars.
    pub dollars: u128,
    /// The round that began last; `None` before the first.
    now: Option<Round>,
    /// Whether the company has operated since then.
    has_operated: bool,
}

impl Earnings {
    /// Returns the earnings after an event that begins this round, if it begins one.
    fn with_round(self, begun: Option<Round>) -> Earnings
        ensures earnings { result ≡ with_round self begun }
        ensures same { result.dollars ≡ self.dollars }
    {
        match begun {
            Some(_) => Earnings {
                now: begun,
                has_operated: false,
                ..self
            },
            None => self,
        }
    }

    /// Adds this sum, if there is one. It is added to the dollars of this round if the company has
    /// operated in it, and replaces them otherwise.
    fn with_sum(self, sum: Option<Amount>) -> Earnings
        requires { self.dollars ≤ 2 ^ 100 }
        ensures earnings { result ≡ with_sum self sum }
        ensures small { result.dollars ≤ self.dollars + 2 ^ 32 }
    {
        let Some(sum) = sum else {
            return self;
        };
        let before = if self.has_operated { self.dollars } else { 0 };
        Earnings {
            round: self.now,
            dollars: before + u128::from(sum),
            has_operated: true,
            ..self
        }
    }
}

/// Returns what a company earned in the last round in which it operated.
pub fn earnings_of(events: &[Event], company: Company) -> Earnings
    ensures earnings { result ≡ earnings_of company events.now }
    ensures small { result.dollars < 2 ^ 127 }
{
    let mut earnings = Earnings {
        round: None,
        dollars: 0,
        now: None,
        has_operated: false,
    };
    for event in events {
        earnings = earnings
            .with_round(event.round())
            .with_sum(earned_by(company, event));
    }
    earnings
}

/// Returns what a company earns by an event with which it operates: the revenue of its runs, in
/// dollars, and 0 for WITHHOLD, since an earlier event has the revenue that it keeps. `None` for
/// every other event.
fn earned_by(company: Company, event: &Event) -> Option<Amount>
    ensures { result ≡ earned_by company event.now }
{
    match event {
        Event::Runs {
            company: its,
            revenue,
        } if *its == company => Some(*revenue),
        Event::Withheld { company: its, .. } if *its == company => Some(0),
        _ => None,
    }
}
