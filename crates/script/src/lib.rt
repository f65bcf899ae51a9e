// The session script: its lines read, and answered.
#![tactic(auto)]

pub mod answer;
pub mod line;
mod read;
pub mod session;
pub mod text;
