// Normal prints (document 01, "Reader"), by their kinds: a text is one exactly where some line can show it. Laws only.
#![tactic(auto)]
