// Contracts in ladder order, and legs: as they are handed in, and as a ticket keeps them.
#![tactic(auto)]

pub mod contract;
pub mod ladder;
pub mod leg;
pub mod letter;
pub mod plain;
pub mod read;
pub mod root;
pub mod text;
