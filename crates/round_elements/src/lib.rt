// Elements read back from the attributes that they are written with: definitions, and that it is so.
#![tactic(auto)]
