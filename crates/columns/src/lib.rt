// A line of a name and numbers, with tabs between: how its fields are read and written, whatever their count. Index lines of five columns
// and of six are read and written by these.
#![tactic(auto)]

mod decimal;
pub mod fields;
