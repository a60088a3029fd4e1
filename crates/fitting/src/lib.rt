// Laws on the answers as they cross to C: that their numbers fit into the flat structs, that the calls refuse by names alone, and that what is
// refused or absent permits nothing. It uses the calls' crates, flat and flat_answers in its laws only.
#![tactic(auto)]
