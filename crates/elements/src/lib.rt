// The names of the language, the table of elements and the characters of values: definitions (specs/) and what is proved of them (proofs/).
#![tactic(auto)]
