// What the machine of the XML tokenizer accepts is a document of the grammar: laws only.
#![tactic(auto)]
