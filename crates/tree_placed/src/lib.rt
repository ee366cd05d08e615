// A report's records and texts, wherever the texts stand.
#![tactic(auto)]
