//! What a stop may leave, told by a clock that counts moments.
#![tactic(auto)]
