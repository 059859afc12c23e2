//! PRIVATE: a company buys a private from a player, at any step. `purchases::judge_private` checks
//! its rules. The step of the turn does not change.
ghost use Rattle.std.specs.Prelude.{◌≡◌, OnOk};
ghost use Rattle.operating.specs.CompanyTurn.{GoesOn, IsInOrder, state};
ghost use Rattle.operating.specs.Private.{after_private};
ghost use Rattle.order_grammar.specs.declared.order.Order.TheVariants.{Play};
ghost use Rattle.order_grammar.specs.declared.play.PlayOrder.TheVariants.{BuyOwnedPrivate};
ghost use Rattle.sheets.specs.Part.{line_with};

use crate::company_turn::CompanyTurn;
use history::Refusal;
use order_grammar::Order;
use purchases::{Consents, buy_private, judge_private};
use sheets::ReadLine;
use std::alloc::AllocError;
use tables::{Amount, Private};
use turns::record;

impl CompanyTurn {
    /// Rules a PRIVATE of this line, and buys the private if it is obeyed. The step of the turn
    /// does not change.
    pub(crate) fn rule_private(
        &mut self,
        line: ReadLine,
        order: &Order,
        private: Private,
        price: Amount,
    ) -> Result<(), AllocError>
        requires order { IsInOrder self.old }
        requires is { order.now ≡ Play (BuyOwnedPrivate private price) }
        ensures turn { OnOk result (state self.new
            ≡ after_private self.old.by (state self.old)
            (line_with line (Play (BuyOwnedPrivate private price))) private price) }
        ensures order { OnOk result (GoesOn self.old self.new) }
    {
        let by = self.by;
        let rule = judge_private(&self.history, by.company, private, price, Consents::OfGame);
        let broken = rule.map(Refusal::Private);
        if record(&mut self.history, by.president, line, order, broken)? {
            buy_private(&mut self.history, by.company, private, price)?;
        }
        Ok(())
    }
}
