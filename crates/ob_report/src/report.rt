//! The lines of an epoch's record.

ghost use Rattle.std.specs.Prelude.{◌++◌, codes, map, flat_map};
ghost use Rattle.std.specs.Fmt.{decimal};
ghost use Rattle.ob_serial.specs.Views.{txn_of, record_of};
ghost use Rattle.ob_report.specs.Report.{line_end, reply_text, op_line, outcome_text, head_line, txn_text, record_text};
ghost use Rattle.ob_serial.specs.declared.records.Outcome.TheVariants as Outcome;
ghost use Rattle.ob_report.specs.Gathered.{gathered, Gathers};
ghost use Rattle.ob_io.specs.Streams.{outflow};
ghost use Rattle.ob_report.specs.Printed.{Prints};

use crate::page::{Page, hand_over, put_bytes};
use crate::piece::Piece::{Number, Text};
use crate::piece::{put_number, put_pieces};
use ob_base::{Failed, Key, Op, Value};
use ob_io::Sink;
use ob_serial::{EpochRecord, Outcome, TxnRecord, Why};

// Gathers a word and a blank, a key, what stands behind it and a value, and the line's end.
fn put_value<'t, S: Sink>(
    sink: &mut S,
    page: &mut Page,
    before: &'t [u8],
    key: Key,
    after: &'t [u8],
    value: &'t Value,
) -> Result<(), Failed>
    ensures { Gathers (before.now ++ decimal key ++ after.now ++ value.now ++ line_end)
        (gathered S.Sink sink.old page.old.items)
        (gathered S.Sink sink.new page.new.items) result }
{
    put_pieces(
        sink,
        page,
        &[
            Text(before),
            Number(u64::from(key)),
            Text(after),
            Text(value.as_slice()),
            Text(b"\n"),
        ],
    )
}

fn put_get<S: Sink>(
    sink: &mut S,
    page: &mut Page,
    key: Key,
    reply: &Option<Value>,
) -> Result<(), Failed>
    ensures { Gathers (codes "get " ++ decimal key ++ reply_text decimal reply.now ++ line_end)
        (gathered S.Sink sink.old page.old.items)
        (gathered S.Sink sink.new page.new.items) result }
{
    match reply {
        None => put_number(sink, page, b"get ", u64::from(key), b" absent\n"),
        Some(value) => put_value(sink, page, b"get ", key, b" = ", value),
    }
}

fn put_op<S: Sink>(sink: &mut S, page: &mut Page, op: &Op<Key>) -> Result<(), Failed>
    ensures { Gathers (op_line decimal op.now)
        (gathered S.Sink sink.old page.old.items)
        (gathered S.Sink sink.new page.new.items) result }
{
    match op {
        Op::Get { key, reply, .. } => put_get(sink, page, *key, reply),
        Op::Put { key, value } => put_value(sink, page, b"put ", *key, b" ", value),
        Op::Del { key } => put_number(sink, page, b"del ", u64::from(*key), b"\n"),
    }
}

// Gathers a conflict over a key, and its line's end.
fn put_conflict<S: Sink>(sink: &mut S, page: &mut Page, key: Key, reader: u64) -> Result<(), Failed>
    ensures { Gathers (codes "aborted conflict key " ++ decimal key
        ++ codes " reader " ++ decimal reader ++ line_end)
        (gathered S.Sink sink.old page.old.items)
        (gathered S.Sink sink.new page.new.items) result }
{
    put_pieces(
        sink,
        page,
        &[
            Text(b"aborted conflict key "),
            Number(u64::from(key)),
            Text(b" reader "),
            Number(reader),
            Text(b"\n"),
        ],
    )
}

// Gathers how many reads were queued and how many are left, and the line's end.
fn put_reads_full<S: Sink>(
    sink: &mut S,
    page: &mut Page,
    queued: u64,
    left: u64,
) -> Result<(), Failed>
    ensures { Gathers (codes "aborted reads full queued " ++ decimal queued
        ++ codes " left " ++ decimal left ++ line_end)
        (gathered S.Sink sink.old page.old.items)
        (gathered S.Sink sink.new page.new.items) result }
{
    put_pieces(
        sink,
        page,
        &[
            Text(b"aborted reads full queued "),
            Number(queued),
            Text(b" left "),
            Number(left),
            Text(b"\n"),
        ],
    )
}

// Gathers why a transaction was aborted, and its line's end.
fn put_why<S: Sink>(sink: &mut S, page: &mut Page, why: Why<Key>) -> Result<(), Failed>
    ensures { Gathers (outcome_text decimal (Outcome.Aborted why) ++ line_end)
        (gathered S.Sink sink.old page.old.items)
        (gathered S.Sink sink.new page.new.items) result }
{
    match why {
        Why::Conflict { key, reader } => put_conflict(sink, page, key, reader),
        Why::Depends { on } => put_number(sink, page, b"aborted depends on ", on, b"\n"),
        Why::ReadsFull { queued, left } => put_reads_full(sink, page, queued, left),
        Why::WritesFull { keys } => {
            put_number(sink, page, b"aborted writes full keys ", keys, b"\n")
        }
        Why::ShareReads { keys } => put_number(sink, page, b"aborted share reads ", keys, b"\n"),
        Why::ShareWrites { keys } => put_number(sink, page, b"aborted share writes ", keys, b"\n"),
        Why::EpochEnd => put_bytes(sink, page, b"aborted epoch end\n"),
        Why::Asked => put_bytes(sink, page, b"aborted asked\n"),
        Why::Stopped { .. } => put_bytes(sink, page, b"aborted stopped\n"),
    }
}

// Gathers how a transaction ended, and its line's end.
fn put_outcome<S: Sink>(sink: &mut S, page: &mut Page, outcome: Outcome<Key>) -> Result<(), Failed>
    ensures { Gathers (outcome_text decimal outcome ++ line_end)
        (gathered S.Sink sink.old page.old.items)
        (gathered S.Sink sink.new page.new.items) result }
{
    match outcome {
        Outcome::Committed => put_bytes(sink, page, b"committed\n"),
        Outcome::Aborted { why } => put_why(sink, page, why),
        Outcome::Unsure { .. } => put_bytes(sink, page, b"unsure\n"),
    }
}

fn put_ops<S: Sink>(sink: &mut S, page: &mut Page, ops: &[Op<Key>]) -> Result<(), Failed>
    ensures { Gathers (flat_map (op_line decimal) ops.now)
        (gathered S.Sink sink.old page.old.items)
        (gathered S.Sink sink.new page.new.items) result }
{
    for op in ops {
        put_op(sink, page, op)?;
    }
    Ok(())
}

// Gathers a transaction's line.
fn put_head<S: Sink>(sink: &mut S, page: &mut Page, txn: &TxnRecord<Key>) -> Result<(), Failed>
    ensures { Gathers (head_line decimal (txn_of txn.now))
        (gathered S.Sink sink.old page.old.items)
        (gathered S.Sink sink.new page.new.items) result }
{
    put_pieces(
        sink,
        page,
        &[
            Text(b"txn "),
            Number(txn.ticket),
            Text(b" client "),
            Number(u64::from(txn.client)),
            Text(b" "),
        ],
    )?;
    put_outcome(sink, page, txn.outcome)
}

fn put_txn<S: Sink>(sink: &mut S, page: &mut Page, txn: &TxnRecord<Key>) -> Result<(), Failed>
    ensures { Gathers (txn_text decimal (txn_of txn.now))
        (gathered S.Sink sink.old page.old.items)
        (gathered S.Sink sink.new page.new.items) result }
{
    put_head(sink, page, txn)?;
    put_ops(sink, page, &txn.ops)
}

fn put_txns<S: Sink>(sink: &mut S, page: &mut Page, txns: &[TxnRecord<Key>]) -> Result<(), Failed>
    ensures { Gathers (flat_map (txn_text decimal) (map (λ t. txn_of t) txns.now))
        (gathered S.Sink sink.old page.old.items)
        (gathered S.Sink sink.new page.new.items) result }
{
    for txn in txns {
        put_txn(sink, page, txn)?;
    }
    Ok(())
}

fn put_record<S: Sink>(
    sink: &mut S,
    page: &mut Page,
    record: &EpochRecord<Key>,
) -> Result<(), Failed>
    ensures { Gathers (record_text decimal (record_of «record».now))
        (gathered S.Sink sink.old page.old.items)
        (gathered S.Sink sink.new page.new.items) result }
{
    put_number(sink, page, b"epoch ", record.epoch, b"\n")?;
    put_txns(sink, page, &record.txns)
}

/// Writes the lines of an epoch's record: the epoch, and for each transaction its ticket, client
/// and outcome, and the operations as they were answered. They are handed over in pieces of 4,096
/// bytes and what is left, and no memory is taken.
///
/// # Errors
/// The sink failed. A front of the lines is written.
pub fn text<S: Sink>(record: &EpochRecord<Key>, sink: &mut S) -> Result<(), Failed>
    ensures { Prints (record_text decimal (record_of «record».now))
        (outflow S.Sink sink.old)
        (outflow S.Sink sink.new) result }
{
    let mut page = Page::new();
    put_record(sink, &mut page, record)?;
    hand_over(sink, &mut page)
}
