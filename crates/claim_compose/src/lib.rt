// Day lines that say given values (document 01, "Day lines"): an S line for a name, and a T, X, E, C, M or V line for what it
// shows. Laws only, in specs/ and proofs/: each value that a line may have has a line, and that line is accepted.
#![tactic(auto)]
