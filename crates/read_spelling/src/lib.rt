// Empty children spelled as Start and End: definitions and laws only.
#![tactic(auto)]
