// Keys: what stands in an order, what has distances besides, and the two tests that every row of keys shares.
#![tactic(auto)]

pub mod key;
pub mod month;
pub mod rows;
pub mod strike;
