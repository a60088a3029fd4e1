// Lists that are gathered index by index, and rows that are offered one after the other to bytes, as definitions with their laws. It uses nothing.
#![tactic(auto)]
