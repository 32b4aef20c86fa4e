// What a document is, how a text spells it, and what reading and printing answer: definitions (specs/) and what is proved of them (proofs/).
#![tactic(auto)]
