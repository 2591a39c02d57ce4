//! The parameters of a small tree.

ghost use Rattle.std.specs.Prelude.{◌≡◌, IfSome};
ghost use Rattle.ob_base.specs.Layout.{meta_len};
ghost use Rattle.ob_base.specs.Tree.{buckets};

use ob_base::Params;

/// Eight keys; seven buckets of two real and three dummy slots.
pub fn small() -> Option<Params>
    ensures { IfSome result (λ p. (p.real ≡ 2) × (p.dummies ≡ 3) × (meta_len p ≡ 35)
        × (buckets p ≡ 7)) }
{
    match Params::new(8, 2, 2, 3, 2, 2, 2, 2, 8) {
        Ok(p) => Some(p),
        Err(_) => None,
    }
}
