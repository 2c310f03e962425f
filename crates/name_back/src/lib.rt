// How a name is read back from a tape (document 01, "Names", "Reader"): laws only, in specs/ and proofs/.
#![tactic(auto)]
