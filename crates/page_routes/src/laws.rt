//! The laws of lanes. Each is the contract of a function that does nothing.
ghost use Rattle.page_routes.specs.Lanes.{RunsHaveTheirLanes};

/// States that two runs over a border have different lanes.
pub fn runs_have_their_lanes()
    ensures { RunsHaveTheirLanes }
{}
