// The claims about the plain book stand in specs/.

#![tactic(auto)]
