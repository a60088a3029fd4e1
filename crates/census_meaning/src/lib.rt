// What the counts of a census mean: their total, the counts of a split stretch, and that each dial is counted under the code of the
// verdict there. Laws only. They use figures, eighths, codes, occupancy, station, table, entry, decision, verdict and census.
#![tactic(auto)]
