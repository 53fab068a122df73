//! What the lines of rows are, as functions whose contracts are these laws.
ghost use Rattle.px_derive.specs.Laws.{NoLineFeed, OneList, OneRow};

/// A line is at most one row's.
pub fn one_row()
    ensures { OneRow }
{}

/// A row's line has no line feed.
pub fn no_line_feed()
    ensures { NoLineFeed }
{}

/// A text is at most one list of rows.
pub fn one_list()
    ensures { OneList }
{}
