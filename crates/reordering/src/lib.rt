// That lengthens may be made in any order. There is no code here.
#![tactic(auto)]
