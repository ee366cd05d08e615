// The tables of crate schema say what each definition of the layout says: roles, attributes, layout, fields, words, stores, lookups.
#![tactic(auto)]
