// A record of a sheet as text: read, and written.
#![tactic(auto)]

mod mark;
pub mod read;
mod term;
pub mod trouble;
pub mod write;
