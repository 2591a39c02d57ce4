//! The numbers of clients.

/// The most clients that a script names and that a desk is made with. Their numbers are from 1 to
/// this one.
pub const MOST_CLIENTS: u32 = 64;
