// How the events of a written report come back from its XML document: definitions only.
#![tactic(auto)]
