// On 60 m, channel against segment (document 02, 4): the choice before it beside the one now, over the definitions. No code. It uses part97
// and what that uses.
#![tactic(auto)]
