//! What a line of a script asks for.

use ob_base::{Key, Value};

/// An operation that a script asks for.
#[derive(Clone, Copy)]
pub enum Ask {
    /// `get K`
    Get { key: Key },
    /// `put K V`, where V is 0 to 64 bytes of 20 to 7E hexadecimal.
    Put { key: Key, value: Value },
    /// `del K`
    Del { key: Key },
    /// `add K I`: the key's value is to be greater by this number. An absent value counts as 0.
    Add { key: Key, amount: i64 },
}

/// How a transaction of a script is to end.
#[derive(Clone, Copy)]
pub enum Ending {
    /// `commit`
    Commit,
    /// `abort`
    Abort,
}

/// A line of a script.
#[derive(Clone, Copy)]
pub enum Line {
    /// A line without a byte, or a comment: `#` and any bytes. It means nothing.
    Blank,
    /// `client C`, from 1 to 64: whose transactions follow.
    Client { client: u32 },
    /// `begin`
    Begin,
    /// An operation of the transaction that is open.
    Asks { ask: Ask },
    /// `commit` or `abort`: the end of the transaction that is open.
    Ends { ending: Ending },
}

/// A transaction of a script: its client, its operations in order, and how it is to end.
#[derive(Drop)]
pub struct ScriptTxn {
    pub client: u32,
    pub asks: Vec<Ask>,
    pub ending: Ending,
}
