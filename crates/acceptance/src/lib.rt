// No code: the promises of the code crates joined, for whoever signs that the layer does what it says.
#![tactic(auto)]
