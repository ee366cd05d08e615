// The proved cases: a table of examples of reading, listing and writing, and what the definitions say of them.
#![tactic(auto)]
