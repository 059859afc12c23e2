//! All rules of its kind that an order breaks at a moment of a game, but for orders of the map,
//! whose rules are in `desk_map_rules`.
//!
//! The umpire names the first rule that an order breaks. A player who mends it may meet the next
//! one. So the desk asks each rule of the kind. The tests are those of the tables of `privates`,
//! `certs`, `stock_round` and `purchases`. Rules of steps, which depend on earlier lines of the
//! same sheet, are never asked.
//!
//! Reading order: `opening_rules`, `standing_rules` (the lines above the first COMPANY line),
//! `purchase_rules`, `sale_rules`, `train_rules`, `private_rules` (the rules of each kind), `site`
//! (where an order stands), `broken` (`broken_rules`).
#![tactic(auto)]

mod broken;
mod opening_rules;
mod private_rules;
mod purchase_rules;
mod sale_rules;
mod site;
mod standing_rules;
mod train_rules;

pub use broken::broken_rules;
pub use opening_rules::{is_cheapest, is_too_low};
pub use private_rules::private_costs_too_much;
pub use purchase_rules::{is_short, is_sold_out_there, is_wrong_start};
pub use sale_rules::{is_first_stock, owns_mohawk};
pub use site::Site;
pub use train_rules::{cost_of_train, purchase_of, traded_count, train_costs_too_much};
