// Catalogues by what they mean, and the analysis: which entry of a catalogue a ticket fits first.
#![tactic(auto)]

pub mod analyse;
pub mod catalogue;
pub mod direction;
pub mod refusal;
pub mod search;
pub mod seating;
pub mod strategy;
