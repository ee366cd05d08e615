// Definitions and laws only: refusal 14, exactly.
#![tactic(auto)]
