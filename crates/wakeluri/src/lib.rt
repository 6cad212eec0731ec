// The entry points for a host, on numbers and lent bytes: the crate wakeluri_c exports them, as include/wakeluri.h declares them. Nothing is
// judged here: each calls one proved function, and gives its answer as numbers. A table is bytes, eight to a number, low byte first. An
// answer begins with the refusal's number, 0 for none, and its two numbers; all else in it is 0 after a refusal, except the count of rows
// that stand.
#![tactic(auto)]

pub mod answer;
pub mod bases;
pub mod cores;
pub mod course;
pub mod feeding;
pub mod files;
pub mod primers;
pub mod qualities;
pub mod rows;
pub mod scan;
pub mod sheets;
pub mod text;
pub mod window;
pub mod writing;
