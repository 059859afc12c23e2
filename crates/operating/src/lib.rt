//! Operating rounds: the turn of a company.
//!
//! At its first turn a company places its home token. Then its president's orders for it are ruled.
//! It may lay a tile, place a token, run its trains, by RUN orders or by RUN BEST, pay out or
//! withhold what they earned, and buy trains and privates. A line may have a condition, which is
//! checked when the line is reached, before it has any effect. The steps of the turn have an
//! order. An obeyed order moves the turn on, and an order for an earlier step is refused. A company
//! that has neither paid nor withheld withholds by itself before it buys trains, and at the end of
//! its turn; its token on the chart then moves left. Finally, a company without a train that could
//! run one must buy one. Its president may have to pay for it and to sell shares; a president who
//! cannot pay is bankrupt.
//!
//! `purchases` rules what it buys, and `forced_purchase` the train that it must buy.
//!
//! Reading order: `completed_runs` (what its trains have done), `progress` (the step of the turn),
//! `company_turn` (all that lasts for the turn: the functions that rule a line are its methods),
//! `game_and_board` (the game and its board between turns), `map_state` (the tiles and tokens on
//! the map), `board_asker` (the company as the rules of the board see it), `home_token`; a file for
//! each order: `lay` and `token` with `amount`, `run`, `run_best`, `pay`, `train`, `private`;
//! `company_orders` (line by line), `turn_end` (what it must buy), `turn`, `turn_ahead` (its parts,
//! for looking ahead), `laws` (what holds of every turn), `train_laws`, `tile_laws`,
//! `private_laws`, `sale_laws`, `forced_laws`, `best_laws`.
#![tactic(auto)]

mod best_laws;
mod board_asker;
mod company_orders;
mod company_turn;
mod completed_runs;
mod forced_laws;
mod game_and_board;
mod home_token;
pub mod laws;
mod lay;
mod map_state;
mod pay;
mod private;
mod private_laws;
mod progress;
mod run;
mod run_best;
mod sale_laws;
mod tile_laws;
mod token;
mod train;
mod train_laws;
mod turn;
mod turn_ahead;
mod turn_end;

pub use board_asker::asker_now;
pub use company_turn::CompanyTurn;
pub use game_and_board::GameAndBoard;
pub use home_token::has_home_token;
pub use progress::Progress;
pub use turn::{play_company, play_on};
pub use turn_ahead::{begin_turn, pass_turn};
