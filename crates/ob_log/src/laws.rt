//! A body spells one record; an area has one list of open records.

ghost use Rattle.ob_log.specs.Laws.{RecordSame, RecordsSame};

/// A body spells one record.
pub fn record_same()
    ensures { RecordSame }
{}

/// A log area has one list of open records.
pub fn records_same()
    ensures { RecordsSame }
{}
