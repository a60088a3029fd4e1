// What holds of every decision that Part 97 makes, and of what judging finds: laws. No code. It uses codes, profile, air, scan, layout, table,
// find, automatic_97_221, decision and part97.
#![tactic(auto)]
