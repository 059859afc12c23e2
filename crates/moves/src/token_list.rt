//! The places where a company may put its next token.
ghost use Rattle.std.specs.Prelude.{◌∷◌, [], IfOk, OnOk};
ghost use Rattle.board.specs.TokenRules.{IsTokenAnswer};
ghost use Rattle.map_tables.specs.declared.place.Place.{Place};
ghost use Rattle.moves.specs.Candidates.{all_places, places_in};
ghost use Rattle.moves.specs.Listed.{AreListed, Lists};

use crate::priced::{Priced, push_priced};
use board::{Asker, Board, TokenFault};
use map_tables::{Hex, Place, StopNumber};
use std::alloc::{AllocError, Global};

/// Places for a company's next token, with its cost there, in the order of hex and stop.
pub type Tokens = Vec<Priced<Place>>;

/// Returns every place where a company may put its next token, with its cost in dollars: of all
/// hexes and their stops, those for which `try_token` returns a cost. Fails only if allocation
/// fails.
pub fn tokens(alloc: Global, board: &Board, asker: &Asker) -> Result<Tokens, AllocError>
    ensures { IfOk result (λ tokens.
        AreListed (IsTokenAnswer board.now asker.now) all_places tokens.items) }
{
    // A law, which does nothing when it runs: these are all hexes.
    map_tables::laws::hexes_are_listed_once();
    let mut tokens = Vec::new(alloc);
    for hex in &Hex::ALL {
        push_tokens_in(&mut tokens, board, asker, *hex)?;
    }
    Ok(tokens)
}

/// Adds the places in a hex: the hex without a stop, which takes no token, and its stops.
fn push_tokens_in(
    tokens: &mut Tokens,
    board: &Board,
    asker: &Asker,
    hex: Hex,
) -> Result<(), AllocError>
    ensures { OnOk result (Lists (IsTokenAnswer board.now asker.now) (places_in hex)
        tokens.old.items tokens.new.items) }
{
    for stop in &[None, Some(StopNumber::First), Some(StopNumber::Second)] {
        let stop = *stop;
        push_token(tokens, board, asker, Place { hex, stop })?;
    }
    Ok(())
}

/// Adds a place if a token may be placed there.
#[tactic(auto, using(crate::proofs::ListedLemmas::lists_priced, crate::proofs::ListedLemmas::lists_refused))]
fn push_token(
    tokens: &mut Tokens,
    board: &Board,
    asker: &Asker,
    place: Place,
) -> Result<(), AllocError>
    ensures { OnOk result (Lists (IsTokenAnswer board.now asker.now) (place ∷ [])
        tokens.old.items tokens.new.items) }
{
    match board.try_token(asker, place) {
        Ok(price) => push_priced(tokens, place, price),
        Err(TokenFault::Rule(_)) => Ok(()),
        Err(TokenFault::Memory(error)) => Err(error),
    }
}
