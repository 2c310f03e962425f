// A text passes the test of names (crate read_name) exactly where an S line can enter a security of that name (document 01,
// "Names", refusal 8); the head of a side is found where it stands. Laws only.
#![tactic(auto)]
