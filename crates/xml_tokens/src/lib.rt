// The answer of the tokenizer: what is due against the rooms, and what its table means. Laws only.
#![tactic(auto)]
