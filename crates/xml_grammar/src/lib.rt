// The grammar of XML documents that are taken in: definitions only.
#![tactic(auto)]
