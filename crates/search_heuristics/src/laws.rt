// The laws of the places of assumed literals, for the crates above. They do nothing when they run.
ghost use Rattle.search_heuristics.specs.PlaceLaws.{PlacesWithMore, PlacesAfterBack};

/// Places stay right when assignments of the present level come last.
pub fn places_with_more()
    ensures { PlacesWithMore }
{}

/// Places stay right when the trail goes back.
pub fn places_after_back()
    ensures { PlacesAfterBack }
{}
