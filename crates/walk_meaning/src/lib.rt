// What a walk amounts to: proved over the calls' definitions. No code. It uses figures, codes, profile, occupancy, scan, station, layout, entry,
// decision, rungs, ceiling, walk and walk_step.
#![tactic(auto)]
