// 97.221(c) and a station that answers one under automatic control (document 02, 3), over the calls' definitions: what the direction
// "respond to automatic" answers is what Originate answers, and where the elsewhere rule asks for a response it is blocked with code 20.
// No code. It uses verdict, ceiling, dials and what these use; of demand_3 the channel band's definition, of starred the practice table.
#![tactic(auto)]
