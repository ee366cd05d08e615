// What writing answers, and what it leaves in the three areas: definitions.
#![tactic(auto)]
