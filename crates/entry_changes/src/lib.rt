//! What a close changes of the entries, as definitions: which entries exist after it, and which of them can be written.
#![tactic(auto)]
