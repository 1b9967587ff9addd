//! The laws of every run together: coherence and progress.
#![tactic(auto)]

ghost use Rattle.coherent_runs.specs.Coherent.{RunsAreCoherent};

/// Every run of a setup within its limits, whoever made it, is coherent: its commits form a legal history of a flat memory, and
/// after each front of it, itself included, a writable copy is the only copy of its line, and where some line is Open, Snooped or
/// Busy, or a Req or RwD message is buffered, some step that isn't an operation is allowed next (CXL 3.1, chapter 3: the states of
/// copies; own rule: what is pending).
pub fn runs_are_coherent()
    ensures { RunsAreCoherent }
{}
