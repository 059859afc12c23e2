//! The tables of 1830 as it is played here: seats, companies, private companies, rounds, money,
//! trains and the chart of the stock market.
//!
//! Each call returns an entry of a table and allocates nothing. `specs/` also holds the few general
//! definitions that several crates share: a step that is repeated until it is over, turns to the
//! left until all pass, and the first rule of a table that is broken.
//!
//! Reading order: `roster` (companies and privates), `seat` (players, their money and the limit of
//! certificates), `round`, `rolling_stock`, `squares` and `chart` (the stock market), `rule_table`
//! (the rules of an order as rows), `laws` (what holds of rounds, of turns and of tables of rules).
#![tactic(auto)]

mod chart;
pub mod laws;
mod rolling_stock;
mod roster;
mod round;
mod rule_table;
mod seat;
mod squares;

pub use chart::{
    CHART_COLUMNS_END, CHART_ROWS, LEAST_PAR, is_par, par_square, par_value, price, square, zone,
};
pub use rolling_stock::{
    KINDS, Kind, PerKind, Trains, limit, rounds_in_set, rusts, same_kind, train,
};
pub use roster::{
    BID_STEP, COMPANIES, Company, POOL_SHARES_MOST, PRESIDENT_SHARES, PRIVATES, PerCompany,
    PerPrivate, Private, SHARES, face, revenue, token_price, tokens,
};
pub use round::{NUMBER_MOST, OPERATING_MOST, Round, same_round};
pub use rule_table::{Advice, Printed, RuleRow, rule_with_code};
pub use seat::{
    Amount, Money, PLAYERS_LEAST, PLAYERS_MOST, PerSeat, Seat, amount_of, bank_start,
    certificate_limit, start_money,
};
pub use squares::{Square, Zone};
