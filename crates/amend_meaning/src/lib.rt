// What an amendment that counts is, and laws of the effective image: with none in force it is the base, a later day with none between gives the
// same one, and amended again it is itself. No code. It uses the definitions of amended and amend.
#![tactic(auto)]
