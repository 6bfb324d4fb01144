//! Laws that there is an answer, over the definitions of closes, images and runs. That there is only one is shown by
//! `close_laws` and `replay`.
#![tactic(auto)]

pub mod closes;
pub mod images;
pub mod outcomes;
