//! Stores in files of a folder of the tests' own.

ghost use Rattle.std.specs.Prelude.{◌≡◌, IfSome};

use crate::files::Call::{
    Borrow, Close, Lane, Make, NoLane, NoReader, NotMade, NotMadeAt, NotOpened, Open, Play,
    Readers, Remove, Rename, Replace,
};
use crate::steps::Step::{Front, NotRead, NotSynced, NotWritten, Read, Synced, Turns, Write};
use crate::steps::{Step, insist_at, play};
use ob_outside::{FileStore, OpenErr, open_locked};
use ob_store::Store;
use std::process::Abort;
use std::{env, fs, process};

pub type HostStore<'a> = FileStore<&'a HostRuntime>;

// The paths of two files of a test that aren't there at first, and the store in the first one.
#[derive(Drop)]
struct Room<'a> {
    host: &'a HostRuntime,
    path: String,
    other: String,
    store: Option<HostStore<'a>>,
}

// A call on the files or on the store, which goes as its name says.
enum Call {
    Open,
    // Opens the store, and makes its file where there is none.
    Make,
    // No memory was wanting.
    NotOpened,
    NotMade,
    NotMadeAt(&'static str),
    Play(&'static [Step]),
    // A lane is made and let go.
    Lane,
    NoLane,
    // The store gets a lane of another one, behind a write to that one's file.
    Borrow,
    Close,
    // None can open the file for reading.
    NoReader,
    // Two read the file at once, and no store is opened while one of them does.
    Readers,
    // The other file gets a text, and the name of the first one.
    Replace,
    // The other file, if there is one, gets the name of the first one.
    Rename,
    Remove,
}

// The path of a file of this name and of this process, in the folder for such files.
fn path_of(rt: &impl Abort, host: &HostRuntime, name: &str) -> String {
    let folder = env::temp_dir(host).ok().expect(rt, "a folder");
    let id = process::id(host.process());
    let path = format!(in host.alloc(); "{}/obladi_{name}_{id}", folder.to_string_lossy());
    path.ok().expect(rt, "memory")
}

/// The path of a file that isn't there yet.
pub fn fresh_path(rt: &impl Abort, host: &HostRuntime, name: &str) -> String {
    let path = path_of(rt, host, name);
    let _ = fs::remove_file(host, path.as_str());
    path
}

/// The store in a file. With `create` that is made where there is none.
pub fn opened<'a>(
    host: &'a HostRuntime,
    path: &str,
    create: bool,
) -> Result<HostStore<'a>, OpenErr> {
    FileStore::open(host, host.alloc(), path, create)
}

fn opens(room: &mut Room, create: bool) -> bool {
    room.store = opened(room.host, room.path.as_str(), create).ok();
    room.store.is_some()
}

fn fails_to_open(host: &HostRuntime, path: &str, create: bool) -> bool {
    matches!(opened(host, path, create), Err(OpenErr::Failed))
}

// Whether a store takes a lane that another one made, behind a write to that one.
fn borrows<S: Store>(store: &mut S, other: &mut S) -> bool
    requires { (S.disk other.old).out ≡ 0 }
{
    if other.write(0, &[2; 128]).is_err() {
        return false;
    }
    let Ok(lane) = other.lane() else {
        return false;
    };
    store.absorb(lane);
    true
}

// Whether a call on a store goes so, beside another one.
fn serves<S: Store + Drop>(rt: &impl Abort, store: &mut S, other: Option<S>, call: &Call) -> bool
    requires store { (S.disk store.old).out ≡ 0 }
    requires other { IfSome other (λ s. (S.disk s).out ≡ 0) }
{
    match (call, other) {
        (Play(steps), _) => {
            play(rt, store, steps);
            true
        }
        (Lane, _) => store.lane().is_ok(),
        (NoLane, _) => store.lane().is_err(),
        (Borrow, Some(mut other)) => borrows(store, &mut other),
        _ => false,
    }
}

fn is_served(rt: &impl Abort, room: &mut Room, call: &Call) -> bool {
    let other = match call {
        Borrow => opened(room.host, room.other.as_str(), true).ok(),
        _ => None,
    };
    match &mut room.store {
        Some(store) => serves(rt, store, other, call),
        None => false,
    }
}

fn closes(room: &mut Room) -> bool {
    room.store = None;
    true
}

fn has_readers(host: &HostRuntime, path: &str) -> bool {
    let Ok(first) = open_locked(host, path) else {
        return false;
    };
    let Ok(second) = open_locked(host, path) else {
        return false;
    };
    drop(first);
    let is_kept = fails_to_open(host, path, false);
    drop(second);
    is_kept
}

fn is_renamed(host: &HostRuntime, path: &str, other: &str) -> bool {
    fs::rename(host, other, path).is_ok()
}

// Whether a call on the files goes so.
fn goes_beside(host: &HostRuntime, path: &str, other: &str, call: &Call) -> bool {
    match *call {
        NotOpened => fails_to_open(host, path, false),
        NotMade => fails_to_open(host, path, true),
        NotMadeAt(path) => fails_to_open(host, path, true),
        NoReader => open_locked(host, path).is_err(),
        Readers => has_readers(host, path),
        Replace => fs::write(host, other, "abc").is_ok() && is_renamed(host, path, other),
        Rename => is_renamed(host, path, other),
        Remove => fs::remove_file(host, path).is_ok(),
        _ => false,
    }
}

// Whether a call goes so.
fn goes(rt: &impl Abort, room: &mut Room, call: &Call) -> bool {
    match *call {
        Open => opens(room, false),
        Make => opens(room, true),
        Close => closes(room),
        Play(_) | Lane | NoLane | Borrow => is_served(rt, room, call),
        _ => goes_beside(room.host, room.path.as_str(), room.other.as_str(), call),
    }
}

// Makes calls one behind the other, on files of these names.
fn run(rt: &impl Abort, host: &HostRuntime, name: &str, other: &str, calls: &[Call]) {
    let mut room = Room {
        host,
        path: fresh_path(rt, host, name),
        other: fresh_path(rt, host, other),
        store: None,
    };
    for i in 0..calls.len() {
        insist_at(rt, goes(rt, &mut room, &calls[i]), i);
    }
}

// The file's hole, and what lies past its end, are zeros.
const KEPT: &[Step] = &[Write(3, 7), Synced, Read(3, 7), Read(2, 0), Read(4, 0)];

// Opened again, also as if it weren't there, it is as it was.
const KEEPS: &[Call] = &[Make, Play(KEPT), Close, Make, Play(&[Read(3, 7)]), Remove];

#[test]
fn a_file_keeps_its_cells(rt: HostRuntime) {
    run(&rt, &rt, "keeps", "other_keeps", KEEPS);
}

const FOUR: &[Step] = &[Write(0, 0), Write(1, 1), Write(2, 2), Write(3, 3), Turns];

const TWO_LANES: &[Call] = &[Make, Play(FOUR), Remove];

#[test]
fn two_lanes_read_by_turns(rt: HostRuntime) {
    run(&rt, &rt, "lanes", "other_lanes", TWO_LANES);
}

const FIRST: &[Step] = &[Write(0, 4), Read(0, 4)];

const THEN: &[Step] = &[Write(0, 5), Read(0, 5), Write(0, 6), Read(0, 6)];

// A lane of another store isn't kept, and one of its own is, though another file has its name then.
const KEEPS_OWN: &[Call] = &[Make, Borrow, Play(FIRST), Rename, Play(THEN), Remove];

#[test]
fn a_lane_is_kept_for_its_own_store(rt: HostRuntime) {
    run(&rt, &rt, "kept", "other_kept", KEEPS_OWN);
}

const SHORT: &[Call] = &[Replace, Open, Play(&[Front(0, *b"abc")]), Remove];

#[test]
fn a_file_that_is_short_reads_as_zeros_behind(rt: HostRuntime) {
    run(&rt, &rt, "short", "other_short", SHORT);
}

// No place of a file is so far.
const TOO_FAR: &[Step] = &[
    NotWritten(u64::MAX / 128, 1),
    NotWritten(u64::MAX, 1),
    NotRead(u64::MAX),
];

// Of a file that was taken away there is the lane given back, and beside it copies of the store's
// own.
const FAILS: &[Call] = &[
    NotOpened,
    NotMadeAt("/"),
    NotMadeAt("/dev/null"),
    Make,
    Play(TOO_FAR),
    Remove,
    Lane,
    Lane,
];

#[test]
fn what_cannot_be_done_fails(rt: HostRuntime) {
    run(&rt, &rt, "none", "other_none", FAILS);
}

// A cell that is written again before a sync, next to others.
const TWICE: &[Step] = &[
    Write(4, 1),
    Write(5, 2),
    Write(5, 3),
    Write(4, 6),
    Read(5, 3),
    Read(4, 6),
    Write(5, 7),
    Synced,
    Read(5, 7),
];

#[test]
fn the_last_bytes_of_a_cell_count(rt: HostRuntime) {
    let calls = &[Make, Play(TWICE), Remove];
    run(&rt, &rt, "twice", "other_twice", calls);
}

// A file of the system that takes no such bytes, and that no sync is of.
const REFUSES: &str = "/proc/self/oom_score_adj";

// The first write is gathered, and fails where the second one hands it over.
const LOST: &[Step] = &[
    Write(0, 1),
    NotWritten(5, 1),
    NotWritten(6, 1),
    NotSynced,
    Step::NoLane,
];

const NOT_SURE: &[Step] = &[NotSynced, NotWritten(0, 1), Step::NoLane];

fn goes_so(rt: &impl Abort, host: &HostRuntime, steps: &[Step]) {
    let mut store = opened(host, REFUSES, false).ok().expect(rt, "a store");
    play(rt, &mut store, steps);
}

#[test]
fn a_store_that_failed_once_fails_for_good(rt: HostRuntime) {
    goes_so(&rt, &rt, LOST);
    goes_so(&rt, &rt, NOT_SURE);
}

const WRITE: Call = Play(&[Write(0, 5)]);

// Those who read it may be several, and no store is among them.
const ALONE: &[Call] = &[Make, WRITE, NotMade, NoReader, Close, Readers, Open, Remove];

#[test]
fn a_file_is_one_stores_alone(rt: HostRuntime) {
    run(&rt, &rt, "locked", "other_locked", ALONE);
}

// Where another file has its name, or none, the first lane isn't made.
const REPLACED: &[Call] = &[Make, Replace, NoLane, Remove, NoLane];

// Where one was made before, others are, and read in the file that was opened.
const MOVED: &[Call] = &[Make, Play(ONE), Replace, Play(&[Turns, Read(0, 0)]), Remove];

const ONE: &[Step] = &[Write(1, 1), Write(2, 2), Write(3, 3), Read(3, 3)];

#[test]
fn a_lane_is_of_the_file_that_was_opened(rt: HostRuntime) {
    run(&rt, &rt, "named", "other_named", REPLACED);
    run(&rt, &rt, "moved", "other_moved", MOVED);
}
