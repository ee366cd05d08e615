// A written report's XML document is read back: claims and their proofs.
#![tactic(auto)]
