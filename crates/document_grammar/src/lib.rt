// A written report's XML document derives in the grammar, and its events are the written ones as they come back: laws only.
#![tactic(auto)]
