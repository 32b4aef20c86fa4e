// Further texts and tables, computed with the definitions of crate document. There is no code here.
#![tactic(auto)]
