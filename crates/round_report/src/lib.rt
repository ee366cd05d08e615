// A plain report is read back from its own events: laws only, in proofs/.
#![tactic(auto)]
