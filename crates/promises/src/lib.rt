// What is promised of the entries of a bench, beyond each entry's own equation: theorems, and no program.
// What they say is in specs/, why they hold in proofs/. Above: nothing. Below: bench, sound.

#![tactic(auto)]
