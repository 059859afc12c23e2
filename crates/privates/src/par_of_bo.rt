//! A PAR in an opening sheet: a standing line that sets the par value of BO in case the seat buys
//! BOP. It must name BO and a par value.
ghost use Rattle.std.specs.Prelude.{◌≡◌, ◌≤◌};
ghost use Rattle.privates.specs.ParOfBo.{is_par_of_baltimore, par_rules, par_set_by};
ghost use Rattle.tables.specs.Rules.{first_broken};

use history::{GameView, OpeningRule};
use tables::{Amount, Company, LEAST_PAR, Seat, par_square, rules};

/// Returns the rule that a PAR breaks.
pub(crate) fn judge_par(company: Company, price: Amount) -> Option<OpeningRule>
    ensures { result ≡ first_broken (par_rules company price) }
{
    rules! { OpeningRule
        NotOfOpening: !is_par_of_baltimore(company, price),
    }
}

/// Returns whether a company is BO, and a price a par value.
fn is_par_of_baltimore(company: Company, price: Amount) -> bool
    ensures { result ≡ is_par_of_baltimore company price }
{
    company == Company::BaltimoreOhio && par_square(price).is_some()
}

/// Returns the par value that a buyer of BOP sets for BO, in dollars: the one in their last obeyed
/// PAR line, or else the least.
pub(crate) fn par_set_by(view: &GameView, buyer: Seat) -> Amount
    ensures par { result ≡ par_set_by view.now.events buyer }
    ensures small { result ≤ 1000000 }
{
    view.par_ordered(buyer).unwrap_or(LEAST_PAR)
}
