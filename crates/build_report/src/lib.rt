// Laws only: what a builder's calls mean for the report that its areas hold.
#![tactic(auto)]
