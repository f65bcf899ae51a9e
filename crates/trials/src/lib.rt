// Tests of the layers on examples.
#![tactic(auto)]

#[cfg(test)]
mod keys_tests;
#[cfg(test)]
mod notation_tests;
#[cfg(test)]
mod script_tests;
#[cfg(test)]
mod sheet_tests;
