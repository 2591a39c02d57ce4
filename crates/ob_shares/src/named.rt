//! The keys that calls of one kind named.

ghost use Rattle.std.specs.Prelude.{◌≡◌, ◌<◌, true, length, vec_capacity, is_some, IfOk};
ghost use Rattle.std.specs.List.{count_by, list_any};
ghost use Rattle.ob_shares.specs.Shares as shares;

use ob_base::{Key, Memory};

/// A key that calls of this client named.
#[derive(Clone, Copy)]
pub struct Named {
    pub client: u32,
    pub key: Key,
}

fn is_name(named: Named, client: u32, key: Key) -> bool
    ensures { result ≡ shares.is_name client key named }
{
    named.client == client && named.key == key
}

fn has_named(names: &[Named], client: u32, key: Key) -> bool
    ensures { result ≡ shares.has_named names.now client key }
{
    names.iter().any(|named| is_name(*named, client, key))
}

fn count_named(names: &[Named], client: u32) -> usize
    ensures { result ≡ shares.count_named names.now client }
{
    names.iter().filter(|named| named.client == client).count()
}

/// The share that the client would go past by naming this key, where it would: it has named so many
/// keys, and not this one.
pub fn past(share: Option<u32>, names: &[Named], client: u32, key: Key) -> Option<u64>
    ensures { result ≡ shares.past share names.now client key }
{
    let keys = share?;
    if has_named(names, client, key) || count_named(names, client) != keys as usize {
        return None;
    }
    Some(u64::from(keys))
}

/// Makes room for one name more, where there is a share.
///
/// # Errors
/// Memory was wanting.
pub fn make_room(share: Option<u32>, names: &mut Vec<Named>) -> Result<(), Memory>
    ensures items { names.new.items ≡ names.old.items }
    ensures room { IfOk result (λ _. is_some share ≡ true
        → length names.new.items < vec_capacity names.new) }
{
    if share.is_some() {
        names.reserve(1)?;
    }
    Ok(())
}

/// The client named the key. It is kept where there is a share.
pub fn add_name(share: Option<u32>, names: &mut Vec<Named>, client: u32, key: Key)
    requires { is_some share ≡ true → length names.old.items < vec_capacity names.old }
    ensures { names.new.items ≡ shares.with_name share names.old.items client key }
{
    if share.is_some() && !has_named(names, client, key) {
        names.push_reserved(Named { client, key });
    }
}
