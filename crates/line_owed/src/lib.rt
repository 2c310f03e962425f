// What a line owes that is in its form and within its values, what an accepted one owes, and what every day has that can be
// reached. No code; theorems over the rules.
#![tactic(auto)]
