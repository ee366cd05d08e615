// What the leaves write is read back by the leaves that read: laws only, in proofs/.
#![tactic(auto)]
