// The tape of the day program, the facts of `factlines` and the explanations of `explain` are of the same calls, each on the same day. Definitions and theorems only.
#![tactic(auto)]
