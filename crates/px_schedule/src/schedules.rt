//! The schedule of a text.
ghost use Rattle.std.specs.Prelude.{◌≡◌, IfOk, IfErr};
ghost use Rattle.px_schedule.specs.Schedules.{IsSchedule, IsEnd};
ghost use Rattle.px_schedule.specs.Fields.{IsOpened, AreEvents, EndsLater, at_line};

use crate::cuts::cut_at;
use crate::events::{Opened, Taken, take_line};
use crate::line_end::LineEnd;
use crate::openings::open_replicas;
use crate::schedule::{Event, Schedule};
use crate::schedule_end::{ScheduleEnd, ScheduleKind};
use px_descent::Checked;
use sqlite_items::Items;
use std::alloc::Global;

/// The refusal of the line of this number.
fn at_line(line: u64, end: LineEnd) -> ScheduleEnd
    ensures { result ≡ at_line line end }
{
    match end {
        LineEnd::Fault(kind) => ScheduleEnd::Fault { line, kind },
        LineEnd::NoMemory => ScheduleEnd::NoMemory,
    }
}

/// The events of the lines behind the first.
fn read_events(
    alloc: Global,
    checked: &Checked,
    opened: Opened<'_>,
    text: &[u8],
) -> Result<Items<Event>, ScheduleEnd>
    requires { IsOpened checked.now opened }
    ensures events { IfOk result (AreEvents checked.now opened.entry text.now) }
    ensures ends { IfErr result (EndsLater checked.now opened.entry text.now) }
{
    let mut taken = Taken {
        events: Items::new(alloc),
        messages: 0,
    };
    let mut rest = text;
    let mut line: u64 = 2;
    'lines: while !rest.is_empty() {
        let Some(next) = cut_at(b'\n', rest) else {
            return Err(ScheduleEnd::Fault {
                line,
                kind: ScheduleKind::Form,
            });
        };
        if let Err(end) = take_line(alloc, checked, opened, &mut taken, next.front) {
            return Err(at_line(line, end));
        }
        rest = next.back;
        line += 1;
    }
    Ok(taken.events)
}

/// Reads a schedule: lines that each end with a line feed, the first of which names the replica declaration and the number of
/// replicas, and the others the events in order. `Fault` has the first line that breaks a rule, counted from 1, and the kind of
/// the first rule that it breaks: the line's form, then for an event that there are at most `EVENTS`, then its fields from left
/// to right. A text without a line feed behind its last line breaks a rule there, an empty text at line 1.
pub fn read_schedule(alloc: Global, checked: &Checked, text: &[u8]) -> Result<Schedule, ScheduleEnd>
    ensures schedule { IfOk result (IsSchedule checked.now text.now) }
    ensures ends { IfErr result (IsEnd checked.now text.now) }
{
    let Some(first) = cut_at(b'\n', text) else {
        return Err(ScheduleEnd::Fault {
            line: 1,
            kind: ScheduleKind::Form,
        });
    };
    let opened = match open_replicas(checked.program(), first.front) {
        Ok(opened) => opened,
        Err(kind) => return Err(ScheduleEnd::Fault { line: 1, kind }),
    };
    let events = read_events(alloc, checked, opened, first.back)?;
    Ok(Schedule {
        declaration: opened.declaration,
        count: opened.count,
        events,
    })
}
