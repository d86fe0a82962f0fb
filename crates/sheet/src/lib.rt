// Sheets of equations between service centres: the binary format, its reader and its writer.

#![tactic(auto)]

mod block;
pub mod format;
pub mod reader;
pub mod refusal;
mod rows;
mod shape;
pub mod typed;
mod word;
pub mod writer;
