// On the eighths grid, for figures up to 2^40 in size, every sum of rf_range, the guarding, dial_range and a distance is
// exact: laws only, no code. It uses eighths, codes, profile and air.
#![tactic(auto)]
