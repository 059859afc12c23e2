//! What is left: tokens of a company, trains of the bank, tiles. Also the tiles and tokens on the
//! map.
ghost use Rattle.std.specs.Prelude.{◌≡◌};
ghost use Rattle.board.specs.LayRules.{is_tile, on_map_of};
ghost use Rattle.desk_base.specs.StockLeft.{tiles_left, tokens_left, trains_left};
ghost use Rattle.totals.specs.Operating.{tokens_of};
ghost use Rattle.map_tables.specs.OnMap.{has_token, tile_on};

use board_state::tile_on;
use history::{GameView, History};
use map_tables::{Hex, Lay, Stop, TileNo, tile};
use tables::{Company, Kind, tokens, train};

/// Returns how many tokens a company has not placed.
pub fn tokens_left(view: &GameView, company: Company) -> usize
    ensures { result ≡ tokens_left view.now.events company }
{
    tokens(company).saturating_sub(view.tokens_placed(company))
}

/// Returns how many trains of a kind the bank has not sold; `None` if their number has no limit.
pub fn trains_left(view: &GameView, kind: Kind) -> Option<usize>
    ensures { result ≡ trains_left view.now.events kind }
{
    let number = train(kind).number?;
    Some(usize::from(number).saturating_sub(view.trains_sold(kind)))
}

/// Returns how many tiles of a number are not on the map, given the tiles that were laid.
pub fn tiles_left(lays: &[Lay], number: TileNo) -> usize
    ensures { result ≡ tiles_left lays.now number }
{
    usize::from(tile(number).count).saturating_sub(on_map_of(lays, number))
}

/// Returns how many tiles of a number lie on the map.
#[tactic(auto, unfolding(board::specs::LayRules::on_map_of))]
fn on_map_of(lays: &[Lay], number: TileNo) -> usize
    ensures { result ≡ on_map_of lays.now number }
{
    // A law, which does nothing when it runs: these are all hexes.
    map_tables::laws::hexes_are_listed_once();
    let mut count = 0;
    for hex in &Hex::ALL {
        if has_tile(lays, *hex, number) {
            count += 1;
        }
    }
    count
}

/// Returns whether a tile of a number lies on a hex.
fn has_tile(lays: &[Lay], hex: Hex, number: TileNo) -> bool
    ensures { result ≡ is_tile number (tile_on lays.now hex) }
{
    match tile_on(lays, hex) {
        Some(lay) => lay.tile.index() == number.index(),
        None => false,
    }
}

/// Returns whether a company has a token at a stop, among those that were placed.
pub fn has_token(history: &History, stop: Stop, company: Company) -> bool
    ensures { result ≡ has_token (tokens_of history.now.events) stop company }
{
    board_state::has_token(history.tokens(), stop, company)
}
