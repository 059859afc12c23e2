//! Which rules that an order breaks no order of another player can mend.
//!
//! The rules themselves are those of `desk_rules` and `desk_map_rules`. Here each is judged by the
//! game as the round begins, and by what the player's own sheet orders.
//!
//! Reading order: `written` (what a sheet orders), `opening_stays`, `certificates_stay` and
//! `stock_stays`, `company_stays`, `map_stays` (what holds whatever others do), `mending`
//! (`others_can_mend`).
#![tactic(auto)]

mod certificates_stay;
mod company_stays;
mod map_stays;
mod mending;
mod opening_stays;
mod stock_stays;
mod written;

pub use mending::others_can_mend;
pub use written::Written;
