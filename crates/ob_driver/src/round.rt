//! How the driver goes on behind a look.

/// How the run goes on behind a look.
#[derive(Clone, Copy)]
pub enum Round {
    /// Something was done.
    Acted,
    /// Nothing was, and something is left.
    Rested,
    /// Each client has signed off, and no transaction waits for its epoch's end.
    Over,
}
