//! What a president can raise at most for a train by sales.
ghost use Rattle.std.specs.Prelude.{◌≡◌, ◌≤◌, max, pos};
ghost use Rattle.desk_dues.specs.Raised.{brought_by_block, most_of_company, or_block, raised_at_most_by};

use certs::{Sale, market_price};
use forced_purchase::{Operator, judge_raised_sale};
use history::History;
use tables::{Amount, Company};

/// The numbers of shares that a block may have: a company has ten.
const SIZES: [Amount; 10] = [1, 2, 3, 4, 5, 6, 7, 8, 9, 10];

/// Returns what the president of a company can raise at most for its train by sales, in dollars:
/// from each company the block of shares that brings the most.
#[tactic(auto, unfolding(crate::specs::Raised::raised_at_most_by))]
pub fn raised_at_most(history: &History, by: Operator) -> Amount
    ensures value { result ≡ raised_at_most_by history.now by }
    ensures small { result ≤ 28000 }
{
    let mut sum = 0;
    for company in &Company::ALL {
        sum += most_of_company(history, by, *company);
    }
    sum
}

/// Returns the most that one block of a company's shares brings, in dollars.
#[tactic(auto, unfolding(crate::specs::Raised::most_of_company))]
fn most_of_company(history: &History, by: Operator, company: Company) -> Amount
    ensures value { result ≡ most_of_company history.now by company }
    ensures small { result ≤ 3500 }
{
    let mut most = 0;
    for shares in &SIZES {
        most = or_block(history, by, company, most, *shares);
    }
    most
}

/// Returns the greater of a sum and what a block of so many shares of a company brings.
fn or_block(
    history: &History,
    by: Operator,
    company: Company,
    most: Amount,
    shares: Amount,
) -> Amount
    requires small { shares ≤ 10 }
    requires not_more { most ≤ 3500 }
    ensures value { result ≡ or_block history.now by company most shares }
    ensures small { result ≤ 3500 }
{
    most.max(brought_by_block(history, by, Sale { company, shares }))
}

/// Returns what the sale of a block brings, in dollars; 0 if a rule refuses it.
fn brought_by_block(history: &History, by: Operator, block: Sale) -> Amount
    requires { block.shares ≤ 10 }
    ensures value { result ≡ brought_by_block history.now by block }
    ensures small { result ≤ 3500 }
{
    if judge_raised_sale(history, by, block).is_none() {
        block.shares * market_price(&history.now(), block.company)
    } else {
        0
    }
}
