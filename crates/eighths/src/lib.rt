// The grid of eighths, document 01's "in eighths": the test of a figure, and why sums, differences and comparisons of
// such f64 figures are exact. It holds definitions and laws only, in specs/, and no code. It may use the logic's own
// libraries (lib.Ieee above all) and no other crate.
#![tactic(auto)]
