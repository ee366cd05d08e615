// A written table passes refusal 11 and resolves to the events that were written: laws only, in proofs/.
#![tactic(auto)]
