// Demand 3: two lists of day lines with equal tapes show the same facts. Definitions and theorems only.
#![tactic(auto)]
