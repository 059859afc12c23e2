//! The numbers of the stops and of the spots of the map.
ghost use Rattle.std.specs.Prelude.{◌≡◌, ◌<◌};
ghost use Rattle.reach.specs.Reached.{map_stops, stop_order};
ghost use Rattle.reach.specs.Search.{map_spots, spot_number};

use crate::walk::Spot;
use map_tables::{ENDS, HEXES, SIDES, Stop, TrackEnd, joined_stop};

/// The number of stop numbers: two for each hex.
pub const STOPS: usize = 2 * HEXES;

/// The number of spots: six sides and two stops for each hex.
pub const SPOTS: usize = ENDS * HEXES;

/// Returns the place of a stop in the order of the map, given its hex.
pub fn stop_order(stop: Stop) -> usize
    ensures value { result ≡ stop_order stop }
    ensures bound { result < map_stops }
{
    2 * stop.hex.index() + stop.number.index()
}

/// Returns the number of a spot, of eight for each hex. A stop that lies in two hexes has one
/// number.
pub fn spot_number(spot: Spot) -> usize
    ensures value { result ≡ spot_number spot }
    ensures bound { result < map_spots }
{
    match spot.end {
        TrackEnd::Side(side) => ENDS * spot.hex.index() + side.number(),
        TrackEnd::Stop(number) => {
            let stop = joined_stop(Stop {
                hex: spot.hex,
                number,
            });
            ENDS * stop.hex.index() + SIDES + stop.number.index()
        }
    }
}
