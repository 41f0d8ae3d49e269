// The promises about accepted, rearranged, moved and switched sheets, in specs/Promises.antt, and about the map, in specs/Map.antt: theorems alone.
#![tactic(auto)]
