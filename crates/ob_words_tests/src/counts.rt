//! How many transactions a self-test is asked for.

use ob_base::{Fault, Field};
use ob_words::{Work, store_wanted, work_of};
use std::process::Abort;

// Words for a count, and what they ask for: none is refused.
static COUNTS: [(&str, Option<u32>); 10] = [
    ("0", Some(0)),
    ("1", Some(1)),
    ("10000", Some(10_000)),
    ("10001", None),
    ("01", None),
    ("x", None),
    ("4294967296", None),
    ("4294967297", None),
    ("+1", None),
    ("", None),
];

// What `drill` asks for with this word; none where the count is refused.
fn count_of<R: AllocGlobal + Abort>(rt: &R, word: &str) -> Option<u32> {
    match work_of(rt.alloc(), &["drill", word]) {
        Ok(Work::Drill { count }) => Some(count),
        Err(fault) => {
            assert!(rt;
                fault
                    == Fault::BadParams {
                        field: Field::COUNT
                    }
            );
            None
        }
        Ok(_) => panic!(rt; "another command"),
    }
}

#[test]
fn counts_are_read_or_refused(rt: HostRuntime) {
    for &(word, wanted) in &COUNTS {
        assert!(&rt; count_of(&rt, word) == wanted, "{word}");
        let words = ["drill", word];
        let paths = store_wanted(rt.alloc(), &words).expect(&rt, "memory");
        assert!(&rt; paths.store.is_none() && paths.keys.is_none() && paths.mirror.is_none());
    }
}
