//! Scripts of many clients, put together line by line.

use ob_base::Memory;
use std::alloc::Global;

/// A transaction: who asks for it, which of the client's it is, the key that it gets, the key that it
/// puts a value under, and whether it gets that key too behind the put. The value tells the client
/// and the transaction, as `CLIENTxNUMBER`.
#[derive(Clone, Copy)]
pub struct Txn {
    pub client: u64,
    pub number: u64,
    pub read: u64,
    pub written: u64,
    pub reads_back: bool,
}

/// Puts the line that begins a client's part behind a script.
///
/// # Errors
/// Memory was wanting.
pub fn push_client(alloc: Global, script: &mut String, client: u64) -> Result<(), Memory> {
    let head = format!(in alloc; "client {client}/")?;
    Ok(script.push_str(head.as_str())?)
}

/// Puts a transaction, which asks to commit, behind a script.
///
/// # Errors
/// Memory was wanting.
pub fn push_txn(alloc: Global, script: &mut String, txn: Txn) -> Result<(), Memory> {
    let Txn {
        client,
        number,
        read,
        written,
        reads_back,
    } = txn;
    let text = format!(in alloc; "begin/get {read}/put {written} {client}x{number}/")?;
    script.push_str(text.as_str())?;
    if reads_back {
        let text = format!(in alloc; "get {written}/")?;
        script.push_str(text.as_str())?;
    }
    Ok(script.push_str("commit/")?)
}
