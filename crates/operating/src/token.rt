//! TOKEN: a company places a further token, at the step of lays or of tokens, which ends both.
//! `Board::try_token` checks its rules. The company pays the bank what the token costs.
ghost use Rattle.std.specs.Prelude.{◌≡◌, OnOk};
ghost use Rattle.operating.specs.CompanyTurn.{GoesOn, IsInOrder, state};
ghost use Rattle.operating.specs.Token.{TokenLeads};
ghost use Rattle.order_grammar.specs.declared.order.Order.TheVariants as form;
ghost use Rattle.order_grammar.specs.declared.play.PlayOrder.TheVariants as play;
ghost use Rattle.sheets.specs.Part.{line_with};

use crate::board_asker::asker;
use crate::company_turn::CompanyTurn;
use crate::map_state::update_map_state;
use board::TokenFault;
use history::{Event, Refusal};
use map_tables::Place;
use order_grammar::Order;
use sheets::ReadLine;
use std::alloc::AllocError;
use tables::amount_of;
use turns::record;

impl CompanyTurn {
    /// Rules a TOKEN of this line, and places the token if it is obeyed.
    pub(crate) fn rule_token(
        &mut self,
        line: ReadLine,
        order: &Order,
        place: Place,
    ) -> Result<(), AllocError>
        requires order { IsInOrder self.old }
        requires is { order.now ≡ form.Play (play.Token place) }
        ensures turn { OnOk result (TokenLeads self.old.by (state self.old)
            (line_with line (form.Play (play.Token place))) place (state self.new)) }
        ensures order { OnOk result (GoesOn self.old self.new) }
    {
        let board = &mut *self.board;
        update_map_state(board, &self.history)?;
        let by = self.by;
        let asker = asker(&self.history, by.company, self.progress);
        match board.try_token(&asker, place) {
            Ok(cost) => {
                record(&mut self.history, by.president, line, order, None)?;
                let company = by.company;
                let cost = amount_of(cost);
                self.history.append(Event::Token {
                    company,
                    place,
                    cost,
                })?;
                self.progress.pass_token();
                Ok(())
            }
            Err(TokenFault::Rule(rule)) => {
                let refusal = Refusal::Token(rule);
                record(&mut self.history, by.president, line, order, Some(refusal))?;
                Ok(())
            }
            Err(TokenFault::Memory(error)) => Err(error),
        }
    }
}
