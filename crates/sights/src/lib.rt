// That a walk sees, by a table of bindings, what the meaning has around a condition.
#![tactic(auto)]
