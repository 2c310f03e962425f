// The reader's answer is the longest normal print at the place (document 01, "Reader"). Laws only.
#![tactic(auto)]
