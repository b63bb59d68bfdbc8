// The documented p-machine is definitions only: see specs/. No code stands here.

#![tactic(auto)]
