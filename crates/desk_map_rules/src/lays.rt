//! The tiles that a company may lay on a hex.
ghost use Rattle.std.specs.Prelude.{◌≡◌, ◌++◌, ◌∷◌, [], IfOk, OnOk};
ghost use Rattle.board.specs.LayRules.{IsLayAnswer};
ghost use Rattle.map_tables.specs.declared.lay.Lay.{Lay};
ghost use Rattle.moves.specs.Candidates.{lays_at, lays_of_tile, lays_on};
ghost use Rattle.moves.specs.Listed.{AreListed, Lists};
ghost use Rattle.operating.specs.BoardAsker.{asker_of};
ghost use Rattle.operating.specs.Progress.{at_start};

use crate::asker::asker_at;
use board::{Asker, Board, LayFault};
use history::GameView;
use map_tables::{Hex, Lay, Rotation, TileNo};
use moves::{Lays, Priced};
use std::alloc::{AllocError, Global};
use tables::{Company, Money};

/// Returns every tile that a company may lay on a hex at the step of its lay, with its cost in
/// dollars: of all tiles and rotations, with and without SWAP, those that break no rule. The board
/// is that of the game. Fails only if allocation fails.
pub fn legal_lays(
    alloc: Global,
    board: &Board,
    view: &GameView,
    company: Company,
    hex: Hex,
) -> Result<Lays, AllocError>
    ensures { let asker = asker_of view.now company at_start in
        IfOk result (λ lays. AreListed (IsLayAnswer board.now asker) (lays_on hex) lays.items) }
{
    lays_by(alloc, board, &asker_at(view, company), hex)
}

/// Returns the lays on a hex by a company that asks.
fn lays_by(alloc: Global, board: &Board, asker: &Asker, hex: Hex) -> Result<Lays, AllocError>
    ensures { IfOk result (λ lays.
        AreListed (IsLayAnswer board.now asker.now) (lays_on hex) lays.items) }
{
    let mut lays = Vec::new(alloc);
    push_lays_on(&mut lays, board, asker, hex)?;
    Ok(lays)
}

/// Adds the lays on a hex.
fn push_lays_on(lays: &mut Lays, board: &Board, asker: &Asker, hex: Hex) -> Result<(), AllocError>
    ensures { OnOk result
        (Lists (IsLayAnswer board.now asker.now) (lays_on hex) lays.old.items lays.new.items) }
{
    // A law, which does nothing when it runs: these are all tiles.
    map_tables::laws::tiles_are_listed_once();
    for tile in &TileNo::ALL {
        push_lays_of_tile(lays, board, asker, hex, *tile)?;
    }
    Ok(())
}

/// Adds the lays of a tile on a hex.
fn push_lays_of_tile(
    lays: &mut Lays,
    board: &Board,
    asker: &Asker,
    hex: Hex,
    tile: TileNo,
) -> Result<(), AllocError>
    ensures { OnOk result (Lists (IsLayAnswer board.now asker.now) (lays_of_tile hex tile)
        lays.old.items lays.new.items) }
{
    for rotation in &Rotation::ALL {
        push_lays_at(lays, board, asker, hex, tile, *rotation)?;
    }
    Ok(())
}

/// Adds the lays of a tile in a rotation on a hex, without SWAP and with it.
fn push_lays_at(
    lays: &mut Lays,
    board: &Board,
    asker: &Asker,
    hex: Hex,
    tile: TileNo,
    rot: Rotation,
) -> Result<(), AllocError>
    ensures { OnOk result (Lists (IsLayAnswer board.now asker.now) (lays_at hex tile rot)
        lays.old.items lays.new.items) }
{
    for swap in &[false, true] {
        let swap = *swap;
        let lay = Lay {
            hex,
            tile,
            rot,
            swap,
        };
        push_lay(lays, board, asker, lay)?;
    }
    Ok(())
}

/// Adds a lay if it may be made.
#[tactic(auto, using(moves::proofs::ListedLemmas::lists_priced, moves::proofs::ListedLemmas::lists_refused))]
fn push_lay(lays: &mut Lays, board: &Board, asker: &Asker, lay: Lay) -> Result<(), AllocError>
    ensures { OnOk result (Lists (IsLayAnswer board.now asker.now) (lay ∷ [])
        lays.old.items lays.new.items) }
{
    match board.try_lay(asker, lay) {
        Ok(price) => push_priced(lays, lay, price),
        Err(LayFault::Rule(_)) => Ok(()),
        Err(LayFault::Memory(error)) => Err(error),
    }
}

/// Adds a lay at a price.
fn push_priced(lays: &mut Lays, lay: Lay, price: Money) -> Result<(), AllocError>
    ensures { OnOk result (lays.new.items
        ≡ lays.old.items ++ record { what = lay; price = price } ∷ []) }
{
    lays.push(Priced { what: lay, price })?;
    Ok(())
}
