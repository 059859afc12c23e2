//! The rules by which a company places a token, and what the token costs.
ghost use Rattle.std.specs.Prelude.{◌≡◌, ◌⊎◌, ◌↔◌, Err, None, Some, IsTrue};
ghost use Rattle.board_state.specs.MapState.{position_of};
ghost use Rattle.board.specs.TokenRules.{IsReachedPlace, IsTokenOutcome, has_none_left, has_token_in, is_full_at};
ghost use Rattle.board.specs.TokenRules.{is_kept_for, is_no_free_slot, is_token_used, kept_at, laid_by, slot_rules};
ghost use Rattle.board.specs.TokenRules.{token_answer_of, token_cost_of};
ghost use Rattle.tables.specs.Rules.{first_broken};

use crate::board::Board;
use crate::fault::TokenFault;
use crate::powers::is_dh_token;
use crate::turn::{Asker, TurnStep};
use board_state::{OnMap, same_company, same_hex, same_stop, slots};
use map_tables::{Hex, Place, Stop, TokenRule, home, joined_stop};
use reach::reaches_stop;
use tables::{Amount, Company, Money, rules, token_price, tokens};

impl Board {
    /// Returns what a token costs, in dollars, or the first rule that it breaks. It does not change
    /// the board, and allocates nothing.
    pub fn try_token(&self, asker: &Asker, place: Place) -> Result<Money, TokenFault>
        ensures { IsTokenOutcome self.now asker.now place result }
    {
        if let Some(rule) = self.judge_slot(asker, place) {
            return Err(TokenFault::Rule(rule));
        }
        let reached = self.reaches(asker.company, place);
        let cost = self.judge_token(asker, place, reached)?;
        Ok(cost)
    }

    /// Returns what a token costs, in dollars, or the first rule that it breaks, given whether the
    /// stop is reached. The token keeps the rules before that one.
    fn judge_token(&self, asker: &Asker, place: Place, reached: bool) -> Result<Money, TokenRule>
        requires { first_broken (slot_rules self.now asker.now place) ≡ None }
        ensures { result ≡ token_answer_of self.now asker.now place reached }
    {
        let cost = Money::from(self.token_cost(asker, place.hex));
        let broken = rules! { TokenRule
            NotReached: !(is_dh_token(asker, place.hex) || reached),
            CashTooSmall: asker.cash < cost,
        };
        match broken {
            Some(rule) => Err(rule),
            None => Ok(cost),
        }
    }

    /// Returns the first rule that a token breaks, of those that do not depend on what is reached.
    fn judge_slot(&self, asker: &Asker, place: Place) -> Option<TokenRule>
        ensures { result ≡ first_broken (slot_rules self.now asker.now place) }
    {
        rules! { TokenRule
            StepUsed: is_token_used(asker),
            NoTokenLeft: self.has_none_left(asker.company),
            NoFreeSlot: self.is_no_free_slot(place),
            InHexAlready: self.has_token_in(place.hex, asker.company),
        }
    }

    /// Returns whether a company reaches the stop that a place names.
    fn reaches(&self, company: Company, place: Place) -> bool
        ensures { let position = position_of self.now in
            IsTrue result ↔ IsReachedPlace position company place }
    {
        let tokens = self.laid_tokens();
        match place.stop() {
            Some(stop) => reaches_stop(self, company, tokens, joined_stop(stop)),
            None => false,
        }
    }

    /// Returns how many tokens a company has on the map.
    #[tactic(auto, unfolding(crate::specs::TokenRules::laid_by))]
    fn laid_by(&self, company: Company) -> usize
        ensures { result ≡ laid_by self.now.tokens company }
    {
        self.tokens
            .as_slice()
            .iter()
            .filter(|token| same_company(token.1, company))
            .count()
    }

    /// Returns what the company's next token costs on a hex, in dollars: its price, or 0 if it is
    /// DH's.
    #[tactic(auto, unfolding(crate::specs::TokenRules::token_cost_of))]
    fn token_cost(&self, asker: &Asker, hex: Hex) -> Amount
        ensures { result ≡ token_cost_of self.now.tokens asker.now hex }
    {
        if is_dh_token(asker, hex) {
            return 0;
        }
        token_price(self.laid_by(asker.company))
    }

    /// Returns whether a company has no token left.
    #[tactic(auto, unfolding(crate::specs::TokenRules::has_none_left))]
    fn has_none_left(&self, company: Company) -> bool
        ensures { result ≡ has_none_left self.now.tokens company }
    {
        tokens(company) <= self.laid_by(company)
    }

    /// Returns whether a place is not a city, or all its slots are taken or reserved.
    #[tactic(auto, unfolding(crate::specs::TokenRules::is_no_free_slot))]
    fn is_no_free_slot(&self, place: Place) -> bool
        ensures { result ≡ is_no_free_slot self.now place }
    {
        match place.stop() {
            Some(stop) => self.is_taken_up(stop),
            None => true,
        }
    }

    /// Returns whether all slots of a stop are taken or reserved.
    fn is_taken_up(&self, stop: Stop) -> bool
        ensures { result ≡ is_full_at self.now (Some stop) }
    {
        let taken = self.count_at(joined_stop(stop));
        let slots = slots(self, stop);
        slots <= taken || slots - taken <= self.kept_at(joined_stop(stop))
    }

    /// Returns how many slots of a stop are reserved for companies whose token does not lie there
    /// yet.
    #[tactic(auto, unfolding(crate::specs::TokenRules::kept_at))]
    fn kept_at(&self, stop: Stop) -> usize
        ensures { result ≡ kept_at self.now.tokens stop }
    {
        Company::ALL
            .iter()
            .filter(|company| self.is_kept_for(stop, **company))
            .count()
    }

    /// Returns whether a slot of a stop is reserved for a company.
    fn is_kept_for(&self, stop: Stop, company: Company) -> bool
        ensures { result ≡ is_kept_for self.now.tokens stop company }
    {
        same_stop(home(company), stop) && !self.holds(stop, company)
    }

    /// Returns whether a company has a token in a hex.
    #[tactic(auto, unfolding(crate::specs::TokenRules::has_token_in))]
    fn has_token_in(&self, hex: Hex, company: Company) -> bool
        ensures { result ≡ has_token_in self.now.tokens hex company }
    {
        self.tokens.as_slice().iter().any(|token| same_hex(token.0.hex, hex)
            && same_company(token.1, company))
    }
}

/// Returns whether the step of the token is over.
#[tactic(auto, unfolding(crate::specs::TokenRules::is_token_used))]
fn is_token_used(asker: &Asker) -> bool
    ensures { result ≡ is_token_used asker.now }
{
    TurnStep::Token.number() < asker.pointer.number()
}
