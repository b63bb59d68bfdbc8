// Sessions do not see each other: the theorem on turns of a bench, and no program.
// What it says is in specs/, why it holds in proofs/. Above: nothing. Below: bench, and interleave for the theorem in general.

#![tactic(auto)]
