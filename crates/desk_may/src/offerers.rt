//! Who may offer a train. An OFFER is a standing line, which is decided as the round begins.
ghost use Rattle.std.specs.Prelude.{◌≡◌, IfOk};
ghost use Rattle.desk_may.specs.Offerers.{as_offered, led_it, may_offer, presidents_of};

use history::{History, Refusal, TrainRule};
use moves::Answer;
use order_grammar::Offer;
use purchases::is_president;
use std::alloc::{AllocError, Global};
use tables::{Company, Seat};

/// Returns who presides over each company, in roster order. Fails only if allocation fails.
pub(crate) fn presidents(alloc: Global, history: &History) -> Result<Vec<Option<Seat>>, AllocError>
    ensures { IfOk result (λ presidents. presidents.items ≡ presidents_of history.now.events) }
{
    let mut presidents = Vec::new(alloc);
    for company in &Company::ALL {
        presidents.push(history.now().president(*company))?;
    }
    Ok(presidents)
}

/// Returns whether a seat presided over a company as the round began, given who presided over each.
pub(crate) fn led_it(presidents: &[Option<Seat>], company: Company, seat: Seat) -> bool
    ensures { result ≡ led_it presidents.now company seat }
{
    match presidents.get(company.index()) {
        Some(president) => is_president(*president, seat),
        None => false,
    }
}

/// Returns whether a seat may make an offer, given who presides as the round begins.
fn may_offer(presidents: &[Option<Seat>], giver: Seat, offer: Offer) -> bool
    ensures { result ≡ may_offer presidents.now giver offer }
{
    match offer {
        Offer::Train { seller, .. } => led_it(presidents, seller, giver),
        Offer::Private { .. } => true,
    }
}

/// Returns the outcome of an order, given that no offer may come too late: a player who presides
/// over the seller of a train only since the round began has no offer that was obeyed.
pub(crate) fn as_offered(presidents: &[Option<Seat>], answer: Answer) -> Answer
    ensures { result ≡ as_offered presidents.now answer }
{
    match answer {
        Answer::WithConsent { giver, offer, .. } if !may_offer(presidents, giver, offer) => {
            Answer::Refused(Refusal::Train(TrainRule::NoConsent))
        }
        answer => answer,
    }
}
