// Lists of calls of the engine: what they print and where they leave the state, by the rules. No code; theorems over `Taken`.
#![tactic(auto)]
