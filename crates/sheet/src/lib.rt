// A sheet: a catalogue from a supplied list of records of any content.
#![tactic(auto)]

mod fit;
mod form;
mod formed;
mod letter;
pub mod make;
pub mod record;
pub mod sheet;
mod text;
