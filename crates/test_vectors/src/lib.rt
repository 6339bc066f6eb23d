// Call vectors, for the programs that make them: read from the input, and shown after the call.
#![tactic(auto)]

pub mod fault;
pub mod limits;
pub mod memories;
mod nine;
mod out;
pub mod rest;
pub mod run;
pub mod show;
