// The decoder of a tape in all modes: from the tape alone, what each print shows, by the names of the day's securities, the
// mode and the last printed prices. Definitions and laws only; the specification of a reader for all modes.
#![tactic(auto)]
