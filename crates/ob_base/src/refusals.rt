//! What std's own errors of memory become.

ghost use Rattle.std.specs.Prelude.{◌≡◌};
ghost use Rattle.ob_base.specs.declared.fault.Fault.TheVariants as fault;

use crate::fault::{Damaged, Fault, Memory, StashFull, Worn};
use std::alloc::{AllocError, AllocFailed};

impl From<AllocError> for Memory {
    fn from(_: AllocError) -> Memory {
        Memory
    }
}

impl<T: Drop> From<AllocFailed<T>> for Memory {
    fn from(_: AllocFailed<T>) -> Memory {
        Memory
    }
}

impl From<AllocError> for Fault {
    ghost from_gives = { λ _ f. f ≡ fault.Memory };

    fn from(_: AllocError) -> Fault {
        Fault::Memory
    }
}

impl<T: Drop> From<AllocFailed<T>> for Fault {
    ghost from_gives = { λ _ f. f ≡ fault.Memory };

    fn from(_: AllocFailed<T>) -> Fault {
        Fault::Memory
    }
}

impl From<Memory> for Fault {
    ghost from_gives = { λ _ f. f ≡ fault.Memory };

    fn from(_: Memory) -> Fault {
        Fault::Memory
    }
}

impl From<Damaged> for Fault {
    ghost from_gives = { λ d f. f ≡ fault.Damaged d.cell d.check d.kept d.computed };

    fn from(damaged: Damaged) -> Fault {
        let Damaged {
            cell,
            check,
            kept,
            computed,
        } = damaged;
        Fault::Damaged {
            cell,
            check,
            kept,
            computed,
        }
    }
}

impl From<Worn> for Fault {
    ghost from_gives = { λ w f. f ≡ fault.Worn w.number };

    fn from(worn: Worn) -> Fault {
        Fault::Worn {
            number: worn.number,
        }
    }
}

impl From<StashFull> for Fault {
    ghost from_gives = { λ s f. f ≡ fault.StashFull s.rows };

    fn from(full: StashFull) -> Fault {
        Fault::StashFull { rows: full.rows }
    }
}
