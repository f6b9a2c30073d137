//! Definitions of what an emitter shows, and of what it has done between two moments.
#![tactic(auto)]
