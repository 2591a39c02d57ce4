//! A position map is a finite map.

ghost use Rattle.ob_tables.specs.BookMap.{BooksAreMaps};

/// A position map is a finite map from the keys that are present to their entries: `get`, `set`
/// and `forget` do on it what a finite map's get, insert and remove do.
pub fn books_are_maps()
    ensures { BooksAreMaps }
{}
