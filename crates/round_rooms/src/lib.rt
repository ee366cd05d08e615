// Areas that hold what was read suffice for reading it: definitions, and that it is so.
#![tactic(auto)]
