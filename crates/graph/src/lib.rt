// Definitions and laws only.
#![tactic(auto)]
