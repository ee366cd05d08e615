// Where the bytes of a document's table lie: the records of a derivation, and that all that is due of a document is these. Laws only.
#![tactic(auto)]
