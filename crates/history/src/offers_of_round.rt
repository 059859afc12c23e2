//! The sales offered in the current round, as a game keeps them.
ghost use Rattle.std.specs.Prelude.{◌≡◌, ◌<◌, IsOk, is_some, vec_capacity, vec_len};
ghost use Rattle.events.specs.Event.{obeyed_of};
ghost use Rattle.events.specs.Offers.{offered_in};
ghost use Rattle.events.specs.Orders.{said_by};
ghost use Rattle.totals.specs.Offers.{is_among, says_offer};
ghost use Rattle.totals.specs.Totals.{flag_then};

use crate::list::push_any;
use events::Event;
use order_grammar::Offer;
use std::alloc::AllocError;
use tables::Seat;

/// Returns the sale that an event's line offers, with the seat that offers it, if it is obeyed.
fn offer_in_event(event: &Event) -> Option<(Seat, Offer)>
    ensures { (seat : Seat) (sale : Offer) → says_offer seat sale result
        ≡ is_some (said_by seat (offered_in sale) (obeyed_of event.now)) }
{
    match event {
        Event::Ruled { seat, ruling, .. } => match ruling.offer() {
            Some(sale) => Some((*seat, sale)),
            None => None,
        },
        _ => None,
    }
}

/// Adds the sale that an event offers to a list that has room for one more. An event that begins a
/// round clears the list.
pub(crate) fn apply_offer(offers: &mut Vec<(Seat, Offer)>, event: &Event) -> Result<(), AllocError>
    requires { vec_len offers.old < vec_capacity offers.old }
    ensures applied { (seat : Seat) (sale : Offer) → is_among seat sale offers.new.items
        ≡ flag_then event.now (is_some (said_by seat (offered_in sale) (obeyed_of event.now)))
        (is_among seat sale offers.old.items) }
    ensures ok { IsOk result }
{
    if event.round().is_some() {
        offers.clear();
        return Ok(());
    }
    push_any(offers, offer_in_event(event))
}
