//! The laws of the definitions. Each is the contract of a function that does nothing.
ghost use Rattle.board_state.specs.Fit.{FaultlessAreFit};
ghost use Rattle.board_state.specs.MapState.{MapStatesAreLawful};

/// States that tiles and tokens are accepted as a board exactly if they are fit.
pub fn faultless_are_fit()
    ensures { FaultlessAreFit }
{}

/// States that the position of each map state keeps the laws of a network.
pub fn map_states_are_lawful()
    ensures { MapStatesAreLawful }
{
    map_tables::laws::neighbours_pair();
    map_tables::laws::printed_links_are_in_order();
    map_tables::laws::laid_links_are_in_order();
    map_tables::laws::values_are_at_most_80();
}
