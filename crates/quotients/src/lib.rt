// The quotients of a colour field, as a list of words and its rule, in specs/; there is no code here.
#![tactic(auto)]
