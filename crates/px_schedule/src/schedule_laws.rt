//! What the texts of schedules are, as functions whose contracts are these laws.
ghost use Rattle.px_schedule.specs.ScheduleLaws.{OneSchedule, OneFault, NeverBoth};

use crate::value_laws::one_value;

/// A text is at most one schedule.
pub fn one_schedule()
    ensures { OneSchedule }
{
    one_value();
}

/// A text has at most one fault.
pub fn one_fault()
    ensures { OneFault }
{
    one_value();
}

/// No text that is a schedule has a fault.
pub fn never_both()
    ensures { NeverBoth }
{
    one_value();
}
