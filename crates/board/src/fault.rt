//! Why a tile or a token has no cost: the first rule that it breaks, or a failed allocation.
ghost use Rattle.std.specs.Prelude.{◌≡◌};
ghost use Rattle.board.specs.declared.fault.LayFault.TheVariants as lay_fault;
ghost use Rattle.board.specs.declared.fault.TokenFault.TheVariants as token_fault;

use map_tables::{LayRule, TokenRule};
use std::alloc::AllocError;
use thiserror::Error;

/// Why a lay has no cost: it breaks a rule, or an allocation failed, which does not tell whether
/// the lay is legal.
#[derive(Clone, Copy, Debug, PartialEq, Eq, Drop, Error)]
pub enum LayFault {
    /// The first rule that the lay breaks.
    #[error(transparent)]
    Rule(LayRule),
    /// An allocation failed, after L8 and before L9. `Board::try_lay` makes none.
    #[error(transparent)]
    Memory(AllocError),
}

/// Why a token has no cost: it breaks a rule, or an allocation failed, which does not tell whether
/// the token is legal.
#[derive(Clone, Copy, Debug, PartialEq, Eq, Drop, Error)]
pub enum TokenFault {
    /// The first rule that the token breaks.
    #[error(transparent)]
    Rule(TokenRule),
    /// An allocation failed, after K4 and before K5. `Board::try_token` makes none.
    #[error(transparent)]
    Memory(AllocError),
}

impl From<LayRule> for LayFault {
    ghost from_gives = { λ rule fault. fault ≡ lay_fault.Rule rule };

    fn from(rule: LayRule) -> LayFault {
        LayFault::Rule(rule)
    }
}

impl From<AllocError> for LayFault {
    ghost from_gives = { λ error fault. fault ≡ lay_fault.Memory error };

    fn from(error: AllocError) -> LayFault {
        // An allocation failed: passed on.
        LayFault::Memory(error)
    }
}

impl From<TokenRule> for TokenFault {
    ghost from_gives = { λ rule fault. fault ≡ token_fault.Rule rule };

    fn from(rule: TokenRule) -> TokenFault {
        TokenFault::Rule(rule)
    }
}

impl From<AllocError> for TokenFault {
    ghost from_gives = { λ error fault. fault ≡ token_fault.Memory error };

    fn from(error: AllocError) -> TokenFault {
        // An allocation failed: passed on.
        TokenFault::Memory(error)
    }
}
