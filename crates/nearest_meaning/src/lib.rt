// What the answer to "where to move the dial to" amounts to (document 02, 11): proved over the calls' definitions. No code. It uses nearest,
// nearest_rows, on_grid, demand_3 and what these use.
#![tactic(auto)]
