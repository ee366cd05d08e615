// What is claimed of a report to order: definitions and laws.
#![tactic(auto)]
