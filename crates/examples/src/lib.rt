// Document 01's cases, as a table that is proved. There is no code here.
#![tactic(auto)]
