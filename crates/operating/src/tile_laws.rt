//! The laws of tiles. Each is the contract of a function that does nothing.
ghost use Rattle.operating.specs.TileLaws.{LaysKeepTiles, OthersKeepTiles, TilesAreAllAtFirst, TurnsKeepTiles};

/// States that for each number the tiles on the map and those in the stock together are as many as
/// the manifest has, so that the stock is never short. This holds at first, after each event that
/// lays no tile, after a legal lay, and therefore after a company's turn.
pub fn all_tiles_are_there()
    ensures first { TilesAreAllAtFirst }
    ensures others { OthersKeepTiles }
    ensures lays { LaysKeepTiles }
    ensures turns { TurnsKeepTiles }
{}
