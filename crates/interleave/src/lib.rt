// Interleaved requests of parties that share a world: a theorem, and no program.
// What it says is in specs/, why it holds in proofs/. Above: isolation, where the parties are sessions. Below: nothing.

#![tactic(auto)]
