//! Who may offer a train: an OFFER is a standing line, ruled at the start of an operating round.
ghost use Rattle.std.specs.Prelude.{◌≡◌, IfOk};
ghost use Rattle.desk_may.specs.Offerers.{led_it, may_offer, presidents_of};
ghost use Rattle.page_lays.specs.Allowed.{is_allowed};

use history::History;
use moves::Answer;
use order_grammar::Offer;
use purchases::is_president;
use std::alloc::{AllocError, Global};
use tables::{Company, Seat};

/// Returns who presides over each company, in roster order. Fails only if allocation fails.
pub(crate) fn presidents(alloc: Global, history: &History) -> Result<Vec<Option<Seat>>, AllocError>
    ensures { IfOk result (λ presidents. presidents.items ≡ presidents_of history.now.events) }
{
    let mut presidents = Vec::new(alloc);
    for company in &Company::ALL {
        presidents.push(history.now().president(*company))?;
    }
    Ok(presidents)
}

/// Returns whether a seat presided over a company at the start of the round, given who presided
/// over each.
fn led_it(presidents: &[Option<Seat>], company: Company, seat: Seat) -> bool
    ensures { result ≡ led_it presidents.now company seat }
{
    match presidents.get(company.index()) {
        Some(president) => is_president(*president, seat),
        None => false,
    }
}

/// Returns whether an offer of a seat can be obeyed, given the presidents at the start of the
/// round.
fn may_offer(presidents: &[Option<Seat>], giver: Seat, offer: Offer) -> bool
    ensures { result ≡ may_offer presidents.now giver offer }
{
    match offer {
        Offer::Train { seller, .. } => led_it(presidents, seller, giver),
        Offer::Private { .. } => true,
    }
}

/// Returns whether an order may be given: no rule refuses it, and the offer that it needs, if any,
/// can be obeyed, given the presidents at the start of the round.
pub(crate) fn is_allowed(presidents: &[Option<Seat>], answer: Answer) -> bool
    ensures { result ≡ is_allowed presidents.now answer }
{
    match answer {
        Answer::Obeyed { .. } => true,
        Answer::WithConsent { giver, offer, .. } => may_offer(presidents, giver, offer),
        Answer::Refused(_) => false,
    }
}
