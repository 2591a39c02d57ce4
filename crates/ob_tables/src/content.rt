//! A checkpoint's text tells one content, and has the length of its area.

ghost use Rattle.ob_tables.specs.ContentLaws.{ContentOnce, ContentLength};

/// Two contents that obey the rules and are spelled alike are one, and so are their epochs.
pub fn content_once()
    ensures { ContentOnce }
{}

/// The text of a content that obeys the rules has the length that the layout gives a checkpoint.
pub fn content_length()
    ensures { ContentLength }
{}
