// How a condition is worked out on its bytes, and that this gives its meaning.
#![tactic(auto)]
