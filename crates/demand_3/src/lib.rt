// Demand 3: the distance of a dial from a dial list is nought exactly when the gate allows data at that dial. Proved over the
// definitions of the verdict, the dial list and the distance. No code. It uses those three calls, tidy, and the laws of exact sums.
#![tactic(auto)]
