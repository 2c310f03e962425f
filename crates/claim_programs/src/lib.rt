// What the programs that take a day file tell of it, over any reads and steps. Definitions and theorems only.
#![tactic(auto)]
