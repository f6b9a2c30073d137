//! What the lines of a run say by themselves.
#![tactic(auto)]
