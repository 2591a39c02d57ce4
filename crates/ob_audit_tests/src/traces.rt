//! Tests: traces come in, and what is said of them.

use crate::recipes::{insist, trace_of};
use ob_audit::{Audit, audit, audit_up_to, verdict_text};
use ob_base::Fault;
use ob_mem::{MemSink, MemSource};
use std::alloc::Global;
use std::process::Abort;

// Recipes of traces, and what is said of them: the first line that may not stand there, and what
// may. Cut in four, as a table costs more than in proportion to its rows.
static FORMATS: [(&str, &str); 10] = [
    ("1-177", "fits\n"),
    ("1-176;S!", "fits\n"),
    ("fill", "fits\n"),
    ("fill;1-1;W 1", "breaks line 1462 wanted W 0\n"),
    (
        "1-112;R 41;114-177",
        "breaks line 113 wanted slot of bucket 0\n",
    ),
    (
        "1-108;R 44;110-177",
        "breaks line 109 wanted slot of bucket 0\n",
    ),
    ("1-107;L 4", "breaks line 108 wanted label\n"),
    ("1-172;174-177", "breaks line 173 wanted S\n"),
    ("1-177;L 0", "breaks line 178 wanted W 9\n"),
    ("1-177;W 9", "fits\n"),
];

// A run behind an opening, behind a crash, and behind an end that may have come.
static BEHIND: [(&str, &str); 24] = [
    (
        "1-108;R 74;110-177",
        "breaks line 109 wanted slot of bucket 0\n",
    ),
    ("1-107;W 1", "breaks line 108 wanted label\n"),
    ("1-174;176-177", "breaks line 175 wanted S\n"),
    (
        "1-134;140-144;135-139;145-177",
        "breaks line 135 wanted W 89\n",
    ),
    ("1-73;S", "breaks line 74 wanted start\n"),
    ("1-73;W 0", "breaks line 74 wanted start\n"),
    ("1-73;1-73;74-177", "fits\n"),
    ("1-40;74-75", "fits\n"),
    ("1-40;74-76", "breaks line 43 wanted start\n"),
    ("1-40;O;R 1", "breaks line 42 wanted R 0\n"),
    ("1-176;74-83;R 40", "breaks line 187 wanted R 17 or R 28\n"),
    ("1-176;74-84;R 29", "breaks line 188 wanted R 18\n"),
    ("1-176;74-83;R 28;R 18", "breaks line 188 wanted R 29\n"),
    ("1-176;74-83;R 28;74-84", "fits\n"),
    (
        "1-106;74-99;W 4;S;W 3;S;W 4;S;R 5",
        "breaks line 139 wanted label or W 13\n",
    ),
    ("1-106;74-99;W 4;S;W 3;S;W 4;S;L 3;R 40", "fits\n"),
    (
        "1-106;74-99;W 4;S;W 3;S;W 4;S;W 13;S;W 14;S;W 1",
        "breaks line 143 wanted label\n",
    ),
    (
        "1-111;74-99;W 4;S;W 3;S;W 4;S;L 1",
        "breaks line 144 wanted L 0\n",
    ),
    (
        "1-111;74-99;W 4;S;W 3;S;W 4;S;L 0;R 42",
        "breaks line 145 wanted R 41\n",
    ),
    (
        "1-111;74-99;W 4;S;W 3;S;W 4;S;L 0;R 41;R 46;R 56;L 0;R 42;R 47;R 57;\
         W 15;S;W 16;S;L 2;R 43;R 39;R 40;R 50",
        "fits\n",
    ),
    ("1-111;74-99;W 3", "breaks line 138 wanted W 4\n"),
    (
        "1-111;74-99;W 4;74-99;W 1",
        "breaks line 165 wanted W 4 or W 3\n",
    ),
    ("1-111;74-99;W 4;74-99;W 3;S;W 4;S;L 0", "fits\n"),
    ("1-111;74-99;W 4;74-99;W 4;S;W 3;S;W 4;S;L 0", "fits\n"),
];

// A run with a mirror reads the epoch's register behind the head, and then each of the 109 cells.
static MIRRORED: [(&str, &str); 11] = [
    ("1-73;O M;R 0;5..8;0..108;76-177", "fits\n"),
    (
        "1-73;O;R 0;5..8;0..108;76-177",
        "breaks line 76 wanted R 1\n",
    ),
    (
        "1-73;O M;R 0;5..8;0..1;R 50;3..108;76-177",
        "breaks line 82 wanted R 2\n",
    ),
    ("1-73;O M;R 0;76-177", "breaks line 76 wanted R 5\n"),
    ("1-73;O M;R 0;5..8;76-177", "breaks line 80 wanted R 0\n"),
    (
        "1-73;O M;R 0;5..8;0..107;76-177",
        "breaks line 188 wanted R 108\n",
    ),
    (
        "1-73;O M;R 0;5..8;0..109;76-177",
        "breaks line 189 wanted R 1\n",
    ),
    ("1-73;O M;R 0;5..8;0..40;74-177", "fits\n"),
    ("1-176;O M;R 0;5..8;0..108;76-83;R 28;74-84", "fits\n"),
    (
        "1-176;O M;R 0;5..8;0..108;76-83;R 40",
        "breaks line 300 wanted R 17 or R 28\n",
    ),
    ("1-40;O M;R 0;R 5", "breaks line 43 wanted start\n"),
];

// Nothing, and what is no first line.
static BAD: [(&str, &str); 15] = [
    ("!", "fits\n"),
    ("", "breaks line 1 wanted start\n"),
    ("O", "breaks line 1 wanted start\n"),
    ("O!", "breaks line 1 wanted start\n"),
    ("R 0", "breaks line 1 wanted start\n"),
    (
        "xxxxxxxxxxxxxxxxxxxxxxxxxxxxxxxxxxxxxxxxxxxxxxxxxxxxxxxxxxxxxxxxxxxxxxxxxxxxxxxxxxxxxxxxxxxxxxxxx",
        "breaks line 1 wanted start\n",
    ),
    ("P 8 2 2 3 2 2 2 2 8!", "fits\n"),
    // What is no line, and a line that may not stand second.
    ("1-1;", "breaks line 2 wanted W 0\n"),
    ("1-1;W 00", "breaks line 2 wanted W 0\n"),
    ("1-1; W 0", "breaks line 2 wanted W 0\n"),
    (
        "1-1;xxxxxxxxxxxxxxxxxxxxxxxxxxxxxxxxxxxxxxxxxxxxxxxxxxxxxxxxxxxxxxxxxxxxxxxxxxxxxxxxxxxxxxxxxxxxxxxxx;W 0",
        "breaks line 2 wanted W 0\n",
    ),
    ("1-1", "fits\n"),
    ("1-1;no line", "breaks line 2 wanted W 0\n"),
    ("1-1;R 0", "breaks line 2 wanted W 0\n"),
    ("1-1;W 0;1-73", "fits\n"),
];

// Recipes of traces, the most bytes that are audited, how many reads of the source go well, and
// what is said, nothing where the source fails.
static INPUTS: [(&str, u64, u64, &str); 12] = [
    // The first line has 20 bytes, the next two 4 and 2.
    ("1-3", 26, ALL, "fits\n"),
    ("1-3", 25, ALL, "breaks line 3 wanted end\n"),
    ("1-3", 24, ALL, "breaks line 3 wanted end\n"),
    ("1-3", 23, ALL, "breaks line 2 wanted end\n"),
    ("1-1;W 1;S", 24, ALL, "breaks line 2 wanted W 0\n"),
    ("O", 1, ALL, "breaks line 1 wanted end\n"),
    ("O", 0, ALL, "breaks line 1 wanted end\n"),
    // A source that fails is told, and a line that breaks before the source is read again.
    ("1-177", MOST, 0, ""),
    ("1-177", MOST, 1, ""),
    ("fill", MOST, 1, ""),
    ("P 8 2 2 3 2 2 2 2 8!", MOST, 1, ""),
    ("O", MOST, 1, "breaks line 1 wanted start\n"),
];

const MOST: u64 = 1 << 32;

const ALL: u64 = 1 << 62;

// What is said of a trace that comes from a source, or for what it ends.
fn answer(alloc: Global, source: &mut MemSource, most: u64) -> Result<Audit, Fault> {
    if most < MOST {
        audit_up_to(alloc, source, most)
    } else {
        audit(alloc, source)
    }
}

// Whether this is said of what a source gives.
fn is_said<R: AllocGlobal + Abort>(rt: &R, source: &mut MemSource, most: u64, said: &str) -> bool {
    let mut sink = MemSink::new(rt.alloc(), 100, Vec::new(rt.alloc())).expect(rt, "memory");
    let told = match answer(rt.alloc(), source, most) {
        Ok(audit) => verdict_text(&audit, &mut sink).is_ok(),
        Err(fault) => matches!(fault, Fault::SourceFault),
    };
    told && sink.written() == said.as_bytes()
}

// This is said of a trace by a recipe, of whose source so many reads go well.
fn expect<R: AllocGlobal + Abort>(rt: &R, recipe: &str, most: u64, reads: u64, said: &str) {
    let trace = trace_of(rt.alloc(), recipe).expect(rt, "memory");
    let fails = vec![in rt.alloc(); reads; 1].expect(rt, "memory");
    let mut source = MemSource::new(trace.into_bytes(), fails);
    insist(rt, is_said(rt, &mut source, most, said), recipe);
}

// So it is for each of these recipes.
fn expect_each<R: AllocGlobal + Abort>(rt: &R, rows: &[(&str, &str)]) {
    for i in 0..rows.len() {
        let (recipe, said) = rows[i];
        expect(rt, recipe, MOST, ALL, said);
    }
}

#[test]
fn formats_and_runs_are_audited(rt: HostRuntime) {
    expect_each(&rt, &FORMATS);
}

#[test]
fn runs_behind_others_are_audited(rt: HostRuntime) {
    expect_each(&rt, &BEHIND);
}

#[test]
fn runs_with_a_mirror_are_audited(rt: HostRuntime) {
    expect_each(&rt, &MIRRORED);
}

#[test]
fn what_is_no_line_breaks_a_trace(rt: HostRuntime) {
    expect_each(&rt, &BAD);
}

#[test]
fn inputs_are_cut_and_fail(rt: HostRuntime) {
    for i in 0..INPUTS.len() {
        let (recipe, most, reads, said) = INPUTS[i];
        expect(&rt, recipe, most, reads, said);
    }
}
