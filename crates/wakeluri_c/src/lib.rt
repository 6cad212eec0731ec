// The static library for C and Rust: it exports the entry points of the crate wakeluri under their names, as include/wakeluri.h declares
// them. Each has the clauses of the function that it calls, word for word, and does no more.
#![tactic(auto)]

pub mod bases;
pub mod cores;
pub mod course;
pub mod feeding;
pub mod files;
pub mod primers;
pub mod qualities;
pub mod rows;
pub mod scan;
pub mod sheets;
pub mod text;
pub mod window;
pub mod writing;
