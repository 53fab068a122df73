//! What the texts of values are, as functions whose contracts are these laws.
ghost use Rattle.px_schedule.specs.ValueLaws.{OneValue, PrintedIsText};

/// No text is two values of one type.
pub fn one_value()
    ensures { OneValue }
{}

/// What is printed of a value within the limit is a text of it.
pub fn printed_is_text()
    ensures { PrintedIsText }
{}
