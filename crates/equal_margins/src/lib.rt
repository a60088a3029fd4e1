// Two margins (document 02, 9): with equal margins every call answers as with one, over the calls' definitions. No code. It uses verdict,
// ceiling, dials and what these use.
#![tactic(auto)]
