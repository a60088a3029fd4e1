// "Two accepted station records that differ only in power or plan mark get the same code and segment": proved over the
// verdict's definition. No code. It uses the verdict and what that uses.
#![tactic(auto)]
