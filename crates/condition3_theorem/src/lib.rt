// Definitions and laws only: what building writes is accepted by checking, and Condition 3 holds of it (specs/).
#![tactic(auto)]
