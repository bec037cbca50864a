//! What the states of the one-thread timer machine keep that a run reaches, in specs/ and proofs/.
#![tactic(auto)]
