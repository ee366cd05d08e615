// Documents through the tokenizer's definition, computed. Laws only.
#![tactic(auto)]
