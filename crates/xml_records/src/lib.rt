// Laws only: what the areas hold while a document is read.
#![tactic(auto)]
