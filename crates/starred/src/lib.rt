// The starred cases of document 01's practice table. No code.
#![tactic(auto)]
