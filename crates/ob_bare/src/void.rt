//! A sink that keeps nothing.

ghost use Rattle.std.specs.Prelude.{◌≡◌, ◌<◌, length, Ok, None};

use ob_base::Failed;
use ob_io::Sink;

/// A sink that takes all and keeps nothing. It never fails.
#[derive(Clone, Copy, Debug, PartialEq, Eq)]
pub struct Void;

impl Sink for Void {
    ghost written = { λ _. None };

    ghost faults = { λ _. 0 };

    fn write(&mut self, bytes: &[u8]) -> Result<usize, Failed>
        requires { 0 < length bytes.now }
        ensures { result ≡ Ok (length bytes.now) }
    {
        Ok(bytes.len())
    }
}
