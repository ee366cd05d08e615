// The proved cases of the round trip: a plain report is read back, and each condition of a plain report is needed.
#![tactic(auto)]
