// Definitions and laws only: see specs/ and proofs/. No code stands here, so that an edit of a function proves no law again.

#![tactic(auto)]
