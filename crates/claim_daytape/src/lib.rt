// The tape and the refusals of a whole day, as the rules have them, from what `lines` gathers. Laws only.
#![tactic(auto)]
