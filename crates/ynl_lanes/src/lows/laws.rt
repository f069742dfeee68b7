//! Why a search may pass over what fails the test.

ghost use Rattle.ynl_lanes.specs.lows.Laws.{DoLowsPass, DoesNoneFit};

/// If a request fits in a room, so does each least that is at or below its size.
pub fn lows_pass()
    ensures { DoLowsPass }
{}

/// If from a place on no least fits in a room, no request at or above the least in such a place does.
pub fn none_fits()
    ensures { DoesNoneFit }
{}
