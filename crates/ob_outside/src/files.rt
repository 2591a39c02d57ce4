//! The files that the words name.

ghost use Rattle.std.specs.Prelude.{◌≡◌, IfOk, None};

use crate::locking::{open_emptied, open_locked};
use crate::store::{FileStore, OpenErr};
use crate::streams::{StdSink, StdSource};
use ob_base::{Failed, Fault, Memory};
use ob_io::{ReadErr, read_all};
use ob_words::store_wanted;
use std::alloc::Global;
use std::fs::File;

// The most bytes that a key file may have: the digits of 96 bytes, and a line feed.
const KEY_TEXT: usize = 193;

/// The files of the words, each locked as long as this lives: the key file against writers, the
/// store, its mirror and the trace against all.
#[derive(Drop)]
pub struct Files<'a> {
    /// The key file, where it could be had.
    pub keys: Option<File>,
    /// The store, where it could be had.
    pub store: Option<FileStore<&'a HostRuntime>>,
    /// The store's mirror, made where nothing stood and never emptied, where it could be had, and the
    /// key file and the store were.
    pub mirror: Option<FileStore<&'a HostRuntime>>,
    /// The trace, emptied, where it could be had, and the key file and the store were.
    pub trace: Option<StdSink<File>>,
}

/// The words, and what they name.
#[derive(Drop)]
pub struct Named<'a> {
    /// The words.
    pub words: Vec<&'a str>,
    /// Their files.
    pub files: Files<'a>,
    /// The key file's text, up to a byte more than keys may have: none where there is no file, or
    /// where it can't be read.
    pub keys: Option<Vec<u8>>,
}

fn texts_of(alloc: Global, words: &[String]) -> Result<Vec<&str>, Memory> {
    let mut texts = Vec::new(alloc);
    for word in words {
        texts.push(word.as_str())?;
    }
    Ok(texts)
}

// No file but the key file, if that.
fn without_store<'a>(keys: Option<File>) -> Files<'a>
    ensures keys { result.keys ≡ keys }
    ensures store { result.store ≡ None }
    ensures mirror { result.mirror ≡ None }
    ensures trace { result.trace ≡ None }
{
    Files {
        keys,
        store: None,
        mirror: None,
        trace: None,
    }
}

// A store's file, where it can be had.
fn open_store<'a>(
    rt: &'a HostRuntime,
    path: &str,
    create: bool,
) -> Result<Option<FileStore<&'a HostRuntime>>, Fault> {
    match FileStore::open(rt, rt.alloc(), path, create) {
        Ok(store) => Ok(Some(store)),
        Err(OpenErr::Failed) => Ok(None),
        Err(OpenErr::Memory(_)) => Err(Fault::Memory),
    }
}

// The mirror's file, where the words call for one and it can be had.
fn open_mirror<'a>(
    rt: &'a HostRuntime,
    path: Option<&str>,
) -> Result<Option<FileStore<&'a HostRuntime>>, Fault> {
    match path {
        Some(path) => open_store(rt, path, true),
        None => Ok(None),
    }
}

// The trace's file, where the words call for one and it can be had.
fn open_trace(rt: &HostRuntime, path: Option<&str>) -> Option<StdSink<File>> {
    match open_emptied(rt, path?) {
        Ok(file) => Some(StdSink::new(file)),
        Err(Failed) => None,
    }
}

// Opens and locks the files that the words call for, before anything is read, and before anything is
// written but that a trace is emptied: none where they call for none, or where it can't be had.
// Where two of them are one file the lock of the first refuses the other: the key file comes first,
// then the store, then its mirror, and the trace.
fn open_files<'a>(rt: &'a HostRuntime, words: &[&str]) -> Result<Files<'a>, Fault>
    ensures store { IfOk result (λ files. files.keys ≡ None → files.store ≡ None) }
    ensures mirror { IfOk result (λ files. files.store ≡ None → files.mirror ≡ None) }
    ensures trace { IfOk result (λ files. files.store ≡ None → files.trace ≡ None) }
{
    let paths = store_wanted(rt.alloc(), words)?;
    let (Some(keys), Some((store, create))) = (paths.keys, paths.store) else {
        return Ok(without_store(None));
    };
    let Ok(keys) = open_locked(rt, keys) else {
        return Ok(without_store(None));
    };
    let Some(store) = open_store(rt, store, create)? else {
        return Ok(without_store(Some(keys)));
    };
    Ok(Files {
        keys: Some(keys),
        store: Some(store),
        mirror: open_mirror(rt, paths.mirror)?,
        trace: open_trace(rt, paths.trace),
    })
}

// The text of a key file, up to a byte more than keys may have: none where there is no file, or
// where it can't be read.
fn read_keys(alloc: Global, file: Option<&File>) -> Result<Option<Vec<u8>>, Fault> {
    let Some(file) = file else {
        return Ok(None);
    };
    match read_all(alloc, &mut StdSource::new(file), KEY_TEXT) {
        Ok(text) => Ok(Some(text)),
        Err(ReadErr::Failed) => Ok(None),
        Err(ReadErr::Memory) => Err(Fault::Memory),
    }
}

/// Opens and locks the files that the words name, and then reads the key file. Without a key file
/// no store is opened or made, and without both no mirror and no trace.
///
/// # Errors
/// Memory was wanting.
pub fn open_named<'a>(rt: &'a HostRuntime, words: &'a [String]) -> Result<Named<'a>, Fault>
    ensures store { IfOk result (λ named. named.files.keys ≡ None → named.files.store ≡ None) }
    ensures mirror { IfOk result (λ named. named.files.store ≡ None → named.files.mirror ≡ None) }
    ensures trace { IfOk result (λ named. named.files.store ≡ None → named.files.trace ≡ None) }
{
    let words = texts_of(rt.alloc(), words)?;
    let files = open_files(rt, &words)?;
    let keys = read_keys(rt.alloc(), files.keys.as_ref())?;
    Ok(Named { words, files, keys })
}
