//! LAY: a company lays a tile, or replaces one, at the step of lays. `Board::try_lay` checks its
//! rules. The company pays the bank what the terrain costs.
ghost use Rattle.std.specs.Prelude.{◌≡◌, OnOk};
ghost use Rattle.operating.specs.CompanyTurn.{GoesOn, IsInOrder, state};
ghost use Rattle.operating.specs.Lay.{LayLeads};
ghost use Rattle.order_grammar.specs.declared.order.Order.TheVariants as form;
ghost use Rattle.order_grammar.specs.declared.play.PlayOrder.TheVariants as play;
ghost use Rattle.sheets.specs.Part.{line_with};

use crate::board_asker::asker;
use crate::company_turn::CompanyTurn;
use crate::map_state::update_map_state;
use board::LayFault;
use history::{Event, Refusal};
use map_tables::Lay;
use order_grammar::Order;
use sheets::ReadLine;
use std::alloc::AllocError;
use tables::amount_of;
use turns::record;

impl CompanyTurn {
    /// Rules a LAY of this line, and lays the tile if it is obeyed.
    pub(crate) fn rule_lay(
        &mut self,
        line: ReadLine,
        order: &Order,
        lay: Lay,
    ) -> Result<(), AllocError>
        requires order { IsInOrder self.old }
        requires is { order.now ≡ form.Play (play.Lay lay) }
        ensures turn { OnOk result (LayLeads self.old.by (state self.old)
            (line_with line (form.Play (play.Lay lay))) lay (state self.new)) }
        ensures order { OnOk result (GoesOn self.old self.new) }
    {
        let board = &mut *self.board;
        update_map_state(board, &self.history)?;
        let by = self.by;
        let asker = asker(&self.history, by.company, self.progress);
        match board.try_lay(&asker, lay) {
            Ok(cost) => {
                record(&mut self.history, by.president, line, order, None)?;
                let company = by.company;
                let cost = amount_of(cost);
                self.history.append(Event::Laid { company, lay, cost })?;
                self.progress.count_lay(board, &asker, lay);
                Ok(())
            }
            Err(LayFault::Rule(rule)) => {
                let refusal = Refusal::Lay(rule);
                record(&mut self.history, by.president, line, order, Some(refusal))?;
                Ok(())
            }
            Err(LayFault::Memory(error)) => Err(error),
        }
    }
}
