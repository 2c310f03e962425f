// Lists of calls of the library: each is a run of the engine, so demand 3 and the round trip hold of them. Definitions and theorems only.
#![tactic(auto)]
