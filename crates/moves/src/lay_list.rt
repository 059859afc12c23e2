//! The tiles that a company may lay.
ghost use Rattle.std.specs.Prelude.{◌∷◌, [], IfOk, OnOk};
ghost use Rattle.board.specs.LayRules.{IsLayAnswer};
ghost use Rattle.map_tables.specs.declared.lay.Lay.{Lay};
ghost use Rattle.moves.specs.Candidates.{all_lays, lays_at, lays_of_tile, lays_on};
ghost use Rattle.moves.specs.Listed.{AreListed, Lists};

use crate::priced::{Priced, push_priced};
use board::{Asker, Board, LayFault};
use map_tables::{Hex, Lay, Rotation, TileNo};
use std::alloc::{AllocError, Global};

/// Tiles that may be laid, with their costs, in the order of hex, tile, rotation and SWAP.
pub type Lays = Vec<Priced<Lay>>;

/// Returns every tile that a company may lay, with its cost in dollars: of all hexes, tiles and
/// rotations, with and without SWAP, those for which `try_lay` returns a cost. Fails only if
/// allocation fails.
pub fn lays(alloc: Global, board: &Board, asker: &Asker) -> Result<Lays, AllocError>
    ensures { IfOk result (λ lays. AreListed (IsLayAnswer board.now asker.now) all_lays lays.items) }
{
    // A law, which does nothing when it runs: these are all hexes.
    map_tables::laws::hexes_are_listed_once();
    let mut lays = Vec::new(alloc);
    for hex in &Hex::ALL {
        push_lays_on(&mut lays, board, asker, *hex)?;
    }
    Ok(lays)
}

/// Adds the lays on a hex.
fn push_lays_on(lays: &mut Lays, board: &Board, asker: &Asker, hex: Hex) -> Result<(), AllocError>
    ensures { OnOk result
        (Lists (IsLayAnswer board.now asker.now) (lays_on hex) lays.old.items lays.new.items) }
{
    // A law, which does nothing when it runs: these are all tiles.
    map_tables::laws::tiles_are_listed_once();
    for tile in &TileNo::ALL {
        push_lays_of_tile(lays, board, asker, hex, *tile)?;
    }
    Ok(())
}

/// Adds the lays of a tile on a hex.
fn push_lays_of_tile(
    lays: &mut Lays,
    board: &Board,
    asker: &Asker,
    hex: Hex,
    tile: TileNo,
) -> Result<(), AllocError>
    ensures { OnOk result (Lists (IsLayAnswer board.now asker.now) (lays_of_tile hex tile)
        lays.old.items lays.new.items) }
{
    for rotation in &Rotation::ALL {
        push_lays_at(lays, board, asker, hex, tile, *rotation)?;
    }
    Ok(())
}

/// Adds the lays of a tile in a rotation on a hex, without SWAP and with it.
fn push_lays_at(
    lays: &mut Lays,
    board: &Board,
    asker: &Asker,
    hex: Hex,
    tile: TileNo,
    rot: Rotation,
) -> Result<(), AllocError>
    ensures { OnOk result (Lists (IsLayAnswer board.now asker.now) (lays_at hex tile rot)
        lays.old.items lays.new.items) }
{
    for swap in &[false, true] {
        let swap = *swap;
        let lay = Lay {
            hex,
            tile,
            rot,
            swap,
        };
        push_lay(lays, board, asker, lay)?;
    }
    Ok(())
}

/// Adds a lay if it may be made.
#[tactic(auto, using(crate::proofs::ListedLemmas::lists_priced, crate::proofs::ListedLemmas::lists_refused))]
fn push_lay(lays: &mut Lays, board: &Board, asker: &Asker, lay: Lay) -> Result<(), AllocError>
    ensures { OnOk result (Lists (IsLayAnswer board.now asker.now) (lay ∷ [])
        lays.old.items lays.new.items) }
{
    match board.try_lay(asker, lay) {
        Ok(price) => push_priced(lays, lay, price),
        Err(LayFault::Rule(_)) => Ok(()),
        Err(LayFault::Memory(error)) => Err(error),
    }
}
