// A case read back from its own events: that it is so.
#![tactic(auto)]
