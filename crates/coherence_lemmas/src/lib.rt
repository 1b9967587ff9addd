//! Lemmas on the coherence model that the laws of every run cite: an agent's own and foreign events, messages in flight,
//! and an inversion lemma for each row. They stand in proofs/; no function of this crate has a contract.
#![tactic(auto)]
