// A report's written events and those of its XML document are read alike: definitions and laws only.
#![tactic(auto)]
