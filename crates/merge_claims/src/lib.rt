// What is claimed of a merge: definitions and laws.
#![tactic(auto)]
