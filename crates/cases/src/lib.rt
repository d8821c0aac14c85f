// Document 01's cases P: the table and its proof are in specs/; there is no code here.
#![tactic(auto)]
