// Laws only: each case of a report comes from a `testcase` tag.
#![tactic(auto)]
