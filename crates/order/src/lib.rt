// Laws on the order of figures that are numbers, and on the greater and the lesser of two. It has no code. It uses figures.
#![tactic(auto)]
