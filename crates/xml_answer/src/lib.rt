// What writing a report's XML document answers and leaves: definitions.
#![tactic(auto)]
