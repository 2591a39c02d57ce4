//! The versions of each key by ticket, with the marks of their readers, and who has read the key.
#![tactic(auto)]

pub mod agenda;
pub mod chain;
pub mod readers;
pub mod table;
pub mod unlink;
