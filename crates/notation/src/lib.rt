// A leg of a strategy ticket from its text, and the words of a line.
#![tactic(auto)]

mod cursor;
pub mod field;
pub mod part;
pub mod read;
pub mod words;
