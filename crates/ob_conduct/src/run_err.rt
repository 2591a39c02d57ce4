//! What cuts a run off.

ghost use Rattle.std.specs.Prelude.{◌≡◌};
ghost use Rattle.ob_conduct.specs.Acts.{fault_of};

use ob_base::Fault;

/// What cut a run off.
#[derive(Clone, Copy, PartialEq, Eq)]
pub enum RunErr {
    /// A fault that was met.
    Fault(Fault),
    /// The watch broke, and its sink alone failed.
    Unwatched,
}

impl RunErr {
    /// The fault that the desk is stopped with.
    pub fn fault(self) -> Fault
        ensures { result ≡ fault_of self }
    {
        match self {
            RunErr::Fault(fault) => fault,
            RunErr::Unwatched => Fault::SinkFault,
        }
    }
}
