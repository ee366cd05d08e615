// The XML control: whatever it has not refused goes on to a document. Laws only.
#![tactic(auto)]
