//! Something that may be done, with its price.
ghost use Rattle.std.specs.Prelude.{◌≡◌, ◌++◌, ◌∷◌, [], OnOk};

use std::alloc::AllocError;
use tables::Money;

/// What may be done, with its price.
#[derive(Clone, Copy, Debug, PartialEq, Eq)]
pub struct Priced<T> {
    /// What may be done: a tile to lay, a place for a token, a purchase.
    pub what: T,
    /// Its price, in dollars.
    pub price: Money,
}

/// Adds what may be done at a price.
pub(crate) fn push_priced<T: Drop>(
    list: &mut Vec<Priced<T>>,
    what: T,
    price: Money,
) -> Result<(), AllocError>
    ensures { OnOk result (list.new.items
        ≡ list.old.items ++ record { what = what; price = price } ∷ []) }
{
    list.push(Priced { what, price })?;
    Ok(())
}
