//! What a trace's file holds.

ghost use Rattle.ob_top.specs.Traces.{RunsArePrinted, TracesArePrinted};

/// A watch over the sink of a trace, whole behind the first line, that was shown these notes has
/// written that line and the notes' lines behind what stood there: all of them, or a front of them
/// where the sink's count of faults rose. Where the watch is whole it is all of them. So it is of
/// notes that were shown in two parts, as an opening's and those of what was served behind it.
pub fn traces_are_printed()
    ensures one { TracesArePrinted }
    ensures two { RunsArePrinted }
{}
