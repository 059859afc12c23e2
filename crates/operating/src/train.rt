//! TRAIN: a company buys a train, from the bank, the pool or another company. It has paid or
//! withheld what it earned before. `purchases::judge_purchase` checks its rules, and `buy_train`
//! carries it out with its consequences. The step of the turn does not change.
ghost use Rattle.std.specs.Prelude.{◌≡◌, OnOk};
ghost use Rattle.operating.specs.CompanyTurn.{GoesOn, IsInOrder, state};
ghost use Rattle.order_grammar.specs.declared.order.Order.TheVariants.{Play};
ghost use Rattle.order_grammar.specs.declared.play.PlayOrder.TheVariants.{BuyTrain};
ghost use Rattle.sheets.specs.Part.{line_with};
ghost use Rattle.turns.specs.Small.{IsSmallOrder};
ghost use Rattle.operating.specs.Train.{after_buying};

use crate::company_turn::CompanyTurn;
use history::Refusal;
use order_grammar::{Order, TrainSource};
use purchases::{Consents, buy_train, judge_purchase, purchase_of};
use sheets::ReadLine;
use std::alloc::AllocError;
use tables::Kind;
use turns::record;

impl CompanyTurn {
    /// Rules a TRAIN of this line, after the company has paid or withheld, and buys the train if it
    /// is obeyed.
    pub(crate) fn rule_train(
        &mut self,
        line: ReadLine,
        order: &Order,
        kind: Kind,
        from: TrainSource,
    ) -> Result<(), AllocError>
        requires small { IsSmallOrder (Play (BuyTrain kind from)) }
        requires order { IsInOrder self.old }
        requires is { order.now ≡ Play (BuyTrain kind from) }
        ensures turn { OnOk result (state self.new
            ≡ after_buying self.old.by (state self.old) (line_with line (Play (BuyTrain kind from))) kind
            from) }
        ensures order { OnOk result (GoesOn self.old self.new) }
        ensures board { OnOk result (self.new.board ≡ self.old.board) }
    {
        let by = self.by;
        let purchase = purchase_of(kind, from);
        let rule = judge_purchase(&self.history, by.company, purchase, Consents::OfGame);
        let broken = rule.map(Refusal::Train);
        if record(&mut self.history, by.president, line, order, broken)? {
            buy_train(self.alloc, &mut self.history, by.company, purchase)?;
        }
        Ok(())
    }
}
