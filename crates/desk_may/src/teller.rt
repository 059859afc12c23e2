//! What is said about each row of a turn.
ghost use Rattle.std.specs.Prelude.{◌≡◌, IfOk, Option, map};
ghost use Rattle.desk_may.specs.declared.told.Told.{Told};
ghost use Rattle.moves.specs.declared.row.Row.{Row};

use crate::told::Told;
use moves::Row;
use std::alloc::{AllocError, Global};

/// Decides what is said about a row, if anything.
pub(crate) trait Teller {
    ghost told: { Self → Row → Option Told };

    /// Returns what is said about a row; `None` if nothing is.
    fn tell(&self, row: &Row) -> Option<Told>
        ensures { result ≡ told self.now row.now };
}

/// Returns what is said about each of some rows, in their order. Fails only if allocation fails.
pub(crate) fn all_told<T: Teller>(
    alloc: Global,
    teller: &T,
    rows: &[Row],
) -> Result<Vec<Option<Told>>, AllocError>
    ensures { IfOk result (λ list. list.items ≡ map (T.told teller.now) rows.now) }
{
    let mut list = Vec::new(alloc);
    for row in rows {
        list.push(teller.tell(row))?;
    }
    Ok(list)
}
