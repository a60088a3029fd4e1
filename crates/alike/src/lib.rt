// Bytes that are alike are read alike: laws only. They speak of layout.
#![tactic(auto)]
