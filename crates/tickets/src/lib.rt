// Tickets: the check of a minute and legs, the refusals, and what an accepted ticket keeps.
#![tactic(auto)]

pub mod check;
pub mod fault;
pub mod lines;
pub mod refusal;
pub mod row;
pub mod scale;
pub mod ticket;
