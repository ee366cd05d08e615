// The XML grammar within the control: every document of the grammar is accepted, and told as the events of its derivation. Laws only.
#![tactic(auto)]
