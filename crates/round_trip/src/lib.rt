// A plain report comes back from its own table, with areas as without: laws only, in proofs/.
#![tactic(auto)]
