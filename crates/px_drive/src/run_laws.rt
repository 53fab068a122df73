//! What the table of causes says of every call of `run`, as functions whose contracts are these laws.

ghost use Rattle.px_drive.specs.RunLaws.{MergesJoin, CutIsFront, CutIsFrontOfAll, LinesAgree, CutIsRun, DoneIsRun, SpentIsFirst, RunIsRefused, RefusedIsNotRun, ScheduleIsFaulty, FaultyIsSchedule, TooLongForRunIsLonger, LongScheduleIsTooLong, FirstIsSpent};

use crate::laws::{
    accepted_is_true, never_both, never_rejected, one_rejection, one_source, source_is_checked,
};
use px_replicas::{declared_merges_join, lines_exist, one_need, one_output, schedules_may_happen};
use px_schedule::{never_both as never_schedule_and_fault, one_fault, one_schedule};

/// Where the program of a text has a derivation, the merge of each of its replica declarations is commutative, associative and
/// idempotent in the language's meaning.
pub fn merges_join()
    ensures { MergesJoin }
{
    accepted_is_true();
    source_is_checked();
    declared_merges_join();
}

/// A front of the lines of a schedule's first shows is one of the lines of all its shows.
pub fn cut_is_front()
    ensures { CutIsFront }
{
    one_output();
}

/// A schedule of a program that has a derivation has lines of all its shows, and what was printed where it was run in part is a front of
/// them.
pub fn cut_is_front_of_all()
    ensures { CutIsFrontOfAll }
{
    source_is_checked();
    merges_join();
    schedules_may_happen();
    lines_exist();
    cut_is_front();
}

/// The lines of a schedule's shows agree: two of them with the same numbers have the same text of a state.
pub fn lines_agree()
    ensures { LinesAgree }
{
    one_output();
}

/// Where `run` ends `Done`, all lines were printed, and each event is within the budget.
pub fn done_is_run()
    ensures { DoneIsRun }
{}

/// Where `run` ends `Spent`, the event of its number is the first that is not within the budget, and the lines before it were printed.
pub fn spent_is_first()
    ensures { SpentIsFirst }
{}

/// Where `run` ends with a fault of writing, or without memory, nothing was printed, or a front of the lines of its first shows.
pub fn cut_is_run()
    ensures { CutIsRun }
{}

/// Where `run` ends `Rejected`, the derivation was refused for its cause, whatever the schedule is.
pub fn run_is_refused()
    ensures { RunIsRefused }
{
    never_rejected();
}

/// A rejected derivation is refused before the schedule is read, but for a fault of reading or want of memory.
pub fn refused_is_not_run()
    ensures { RefusedIsNotRun }
{
    one_source();
    never_both();
    never_rejected();
    one_rejection();
}

/// Where `run` ends `Schedule`, the schedule is refused for its first fault.
pub fn schedule_is_faulty()
    ensures { ScheduleIsFaulty }
{}

/// A schedule with a fault is refused for it, but for a fault of reading or want of memory.
pub fn faulty_is_schedule()
    ensures { FaultyIsSchedule }
{
    one_source();
    never_both();
    never_rejected();
    source_is_checked();
    one_fault();
    never_schedule_and_fault();
}

/// A text that is told is too long only where it has more bytes than its limit.
pub fn too_long_for_run_is_longer()
    ensures { TooLongForRunIsLonger }
{}

/// A schedule that has more bytes than its limit is too long, but for a fault of reading or want of memory.
pub fn long_schedule_is_too_long()
    ensures { LongScheduleIsTooLong }
{
    one_source();
    never_both();
    never_rejected();
}

/// The first event that is not within the budget ends a run `Spent`, but for a fault of reading or of writing or want of memory.
pub fn first_is_spent()
    ensures { FirstIsSpent }
{
    one_source();
    never_both();
    never_rejected();
    source_is_checked();
    one_schedule();
    never_schedule_and_fault();
    one_need();
}
