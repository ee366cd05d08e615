// The claims of the tokenizer: which documents it accepts, with which events, and why and where it refuses. Laws only.
#![tactic(auto)]
