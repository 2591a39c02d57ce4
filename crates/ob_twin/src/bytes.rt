//! The bytes of gates and bodies.

ghost use Rattle.std.specs.Prelude.{◌≡◌, ◌↔◌, IsTrue};
ghost use Rattle.ob_twin.specs.Bodies.{open_gate, closed_gate, number_of, plain_of};

/// An open gate: A5 in every byte.
#[tactic(auto, unfolding(crate::specs::Bodies::open_gate))]
pub fn open_gate() -> [u8; 128]
    ensures { result ≡ open_gate }
{
    [0xA5; 128]
}

/// A closed gate as it is written: zeros.
#[tactic(auto, unfolding(crate::specs::Bodies::closed_gate))]
pub fn closed_gate() -> [u8; 128]
    ensures { result ≡ closed_gate }
{
    [0; 128]
}

/// Whether a cell is an open gate. Any other bytes are a closed one.
#[tactic(auto, unfolding(crate::specs::Bodies::open_gate))]
pub fn is_open(gate: &[u8; 128]) -> bool
    ensures { IsTrue result ↔ gate.now ≡ open_gate }
{
    *gate == [0xA5; 128]
}

/// The number of a body, its first 8 bytes.
#[tactic(auto, unfolding(crate::specs::Bodies::number_of))]
pub fn number_of(body: &[u8; 128]) -> u64
    ensures { result ≡ number_of body.now }
{
    let mut word = [0; 8];
    word.copy_from_slice(&body[..8]);
    u64::from_le_bytes(word)
}

/// The plain bytes of a body.
#[tactic(auto, unfolding(crate::specs::Bodies::plain_of))]
pub fn plain_of(n: u64) -> [u8; 112]
    ensures { result ≡ plain_of n }
{
    let mut plain = [0; 112];
    plain[..8].copy_from_slice(&n.to_le_bytes());
    plain
}
