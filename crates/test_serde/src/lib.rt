//! Tests values that serialize, as rows of a table.
#![tactic(auto)]

#[cfg(test)]
mod fields;
#[cfg(test)]
mod rows;
#[cfg(test)]
mod tables;
