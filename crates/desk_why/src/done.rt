//! The last step of a company's turn, by the events before a line.
ghost use Rattle.std.specs.Prelude.{◌≡◌};
ghost use Rattle.desk_why.specs.Done.{done_then, last_done};

use history::Event;
use tables::Company;

/// A step of its turn that a company has done, other than a lay.
#[derive(Clone, Copy)]
pub(crate) enum Done {
    /// It has placed a token other than its home token.
    Token,
    /// One of its trains has run.
    Run,
    /// It has paid or withheld what it earned.
    Pay,
    /// Its orders are over, and it is at the purchase that it must make.
    Purchase,
}

/// Returns the last step that a company has done in the current round; `None` if it has done none.
pub(crate) fn last_done(events: &[Event], company: Company) -> Option<Done>
    ensures { result ≡ last_done events.now company }
{
    let mut done = None;
    for event in events {
        done = done_then(done, event, company);
    }
    done
}

/// Returns the last step that a company has done after one more event.
fn done_then(done: Option<Done>, event: &Event, company: Company) -> Option<Done>
    ensures { result ≡ done_then company done event.now }
{
    match event {
        Event::Round(_) => None,
        Event::Token { company: its, .. } if *its == company => Some(Done::Token),
        Event::Runs { company: its, .. } if *its == company => Some(Done::Run),
        Event::Dividend { company: its, .. } if *its == company => Some(Done::Pay),
        Event::Withheld { company: its, .. } if *its == company => Some(Done::Pay),
        Event::Forced(its) if *its == company => Some(Done::Purchase),
        _ => done,
    }
}
