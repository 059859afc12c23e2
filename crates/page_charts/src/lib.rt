//! The charts of a page: the stock chart with its tokens, and lines of what the players were worth
//! and what the shares cost, round by round, with a table of the figures.
//!
//! Both are drawn from plain values, `ChartToken` and `Entry`; the caller says where they come
//! from. The pages of `games/page/` test the layout.
//!
//! Reading order: `chart_part`, `history_part`.
#![tactic(auto)]

mod chart_part;
mod history_part;

pub use chart_part::{ChartToken, ChartTokens, begin_chart, end_chart, put_chart, put_squares};
pub use history_part::{Entry, Players, put_history};
