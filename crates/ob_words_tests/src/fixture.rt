//! Texts that are put together and compared.

use std::process::Abort;

/// Asserts that just this text was made, of what is named.
pub fn compare<R: Abort>(rt: &R, name: &str, text: &[u8], wanted: &str) {
    assert!(rt; text == wanted.as_bytes(), "{name}");
}

/// Adds a text.
pub fn push<R: Abort>(rt: &R, all: &mut String, text: &str) {
    all.push_str(text).expect(rt, "memory");
}
