//! The privates of the bank: what each costs, which is the cheapest unsold, and whether a seat can
//! pay.
ghost use Rattle.std.specs.Prelude.{◌≡◌};
ghost use Rattle.totals.specs.LookBack.{cheapest_in};
ghost use Rattle.privates.specs.Bank.{is_short, is_the, price_of_private};

use history::{GameView, Owners};
use tables::{Amount, Money, Private, Seat, face};

/// Returns the price of a private at the bank, in dollars: SV's price may have fallen; that of the
/// others is their face value.
pub fn price_of_private(view: &GameView, private: Private) -> Amount
    ensures { result ≡ price_of_private view.now.events private }
{
    match private {
        Private::SchuylkillValley => view.sv_price(),
        _ => face(private),
    }
}

/// Returns whether a private is the cheapest unsold one.
pub(crate) fn is_cheapest(owners: &Owners, private: Private) -> bool
    ensures { result ≡ is_the private (cheapest_in owners.now) }
{
    owners.cheapest_unsold() == Some(private)
}

/// Returns whether a sum is over what a seat can spend on a private.
pub(crate) fn is_short(view: &GameView, seat: Seat, private: Private, sum: Amount) -> bool
    ensures { result ≡ is_short view.now.seats view.now.events seat private sum }
{
    view.free_for(seat, private) < Money::from(sum)
}
