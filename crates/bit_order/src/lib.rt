// Laws on the order of figures by their bits. It has no code. It uses figures.
#![tactic(auto)]
