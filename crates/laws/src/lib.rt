// No code: facts about numbers, bits, tables and lists that the proofs of several crates cite.
#![tactic(auto)]
