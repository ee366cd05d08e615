// What the public listing tells of a table, demand 3: definitions, and what is true of them.
#![tactic(auto)]
