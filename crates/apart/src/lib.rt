// Laws on ranges that lie apart: they share nothing. It has no code. It uses figures, profile and order.
#![tactic(auto)]
