//! Laws of trees, and of ordered maps from names, that servers share. It has no code.
#![tactic(auto)]
