// Demand 3 as a caller in C or Rust meets it: a law over the exported list, verdict and distance. It uses what demand_3 and pamuklid
// define.
#![tactic(auto)]
