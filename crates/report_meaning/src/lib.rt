// What the rows of a table report mean, as laws: pairs and gaps told without the way they are found, and that a table is tidy exactly if
// its report has no overlap and every data segment lies in a band of its number. It has no code. It uses the crates whose definitions it
// speaks of.
#![tactic(auto)]
