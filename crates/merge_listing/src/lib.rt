// Laws only: a listing tells its report's name and counts, and the text of its suites.
#![tactic(auto)]
