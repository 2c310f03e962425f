// The round trip of a whole day in normal mode: laws only. specs/Claim.antt is what is claimed of a run of the engine and the
// reader of its tape, proofs/Back.antt the proof.
#![tactic(auto)]
