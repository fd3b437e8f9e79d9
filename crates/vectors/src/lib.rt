// Scripts with their out cells, run by the definition.

#![tactic(auto)]
