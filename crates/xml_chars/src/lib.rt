// Characters of XML 1.0 and their bytes: definitions, and what is true of them.
#![tactic(auto)]
