// Demand 3 and the starred sheets: statements over all layers, with no code of their own.
#![tactic(auto)]
