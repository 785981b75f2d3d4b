// The open links of a floor and the tree that they make: definitions, with what is proved of them.
#![tactic(auto)]
