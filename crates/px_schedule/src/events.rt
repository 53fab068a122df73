//! The events that the lines of a schedule ask for.
ghost use Rattle.std.specs.Prelude.{◌≡◌, ◌<◌, ◌≤◌, ◌+◌, ◌++◌, ◌∷◌, [], length, Contains, IfOk, IfErr, OnOk};
ghost use Rattle.px_base.specs.declared.limits.TheConstants.{EVENTS};
ghost use Rattle.px_schedule.specs.Fields.{IsOpened, state_at, said, Asks, EndsBroken, messages_of, EndsWrong, Adds};
ghost use Rattle.px_schedule.specs.declared.line_end.LineEnd.TheVariants as ends;

use crate::commands::{Request, read_request};
use crate::line_end::LineEnd;
use crate::schedule::Event;
use crate::schedule_end::ScheduleKind;
use crate::values::read_value;
use px_descent::Checked;
use px_terms::limits::EVENTS;
use px_terms::{NoMemory, Ty};
use sqlite_items::Items;
use std::alloc::Global;

/// What the first line opens: replicas of a declaration, so many of them, with states of this type.
#[derive(Clone, Copy)]
pub(crate) struct Opened<'p> {
    pub(crate) declaration: u32,
    pub(crate) count: u32,
    pub(crate) state: &'p Ty,
}

/// The events so far, and how many of them send a message.
#[derive(Drop)]
pub(crate) struct Taken {
    pub(crate) events: Items<Event>,
    pub(crate) messages: u32,
}

/// The number, where it is below the limit.
fn below(number: u64, limit: u32, kind: ScheduleKind) -> Result<u32, LineEnd>
    ensures small { IfOk result (λ small. (small ≡ number) × (number < limit)) }
    ensures large { IfErr result (λ end. (end ≡ ends.Fault kind) × (limit ≤ number)) }
{
    if number >= u64::from(limit) {
        return Err(LineEnd::Fault(kind));
    }
    Ok(number as u32)
}

/// The event that the request asks for, where one more may take place; else what the request breaks first.
fn event_of(
    alloc: Global,
    checked: &Checked,
    opened: Opened<'_>,
    taken: &Taken,
    request: Request<'_>,
) -> Result<Event, LineEnd>
    requires opened { IsOpened checked.now opened }
    requires room { length taken.now.events < EVENTS }
    ensures asks { IfOk result (λ event. Asks checked.now (state_at opened.entry taken.now) (said request.entry) event) }
    ensures broken { IfErr result (EndsBroken checked.now (state_at opened.entry taken.now) (said request.entry)) }
{
    match request {
        Request::Update { replica, value } => {
            let replica = below(replica, opened.count, ScheduleKind::NoSuchReplica)?;
            let value = read_value(alloc, checked, opened.state, value)?;
            Ok(Event::Update { replica, value })
        }
        Request::Send { replica } => Ok(Event::Send {
            replica: below(replica, opened.count, ScheduleKind::NoSuchReplica)?,
        }),
        Request::Deliver { message, replica } => Ok(Event::Deliver {
            message: below(message, taken.messages, ScheduleKind::NoSuchMessage)?,
            replica: below(replica, opened.count, ScheduleKind::NoSuchReplica)?,
        }),
        Request::Show { replica } => Ok(Event::Show {
            replica: below(replica, opened.count, ScheduleKind::NoSuchReplica)?,
        }),
    }
}

/// How many messages the event sends.
fn messages_of(event: &Event) -> u32
    ensures { result ≡ messages_of event.now }
{
    match event {
        Event::Send { .. } => 1,
        _ => 0,
    }
}

/// Adds the event behind those that were taken.
fn add(taken: &mut Taken, event: Event) -> Result<(), NoMemory>
    requires few { taken.old.messages ≤ length taken.old.events }
    requires room { length taken.old.events < EVENTS }
    ensures events { OnOk result (taken.new.events ≡ taken.old.events ++ event ∷ []) }
    ensures messages { OnOk result (taken.new.messages ≡ taken.old.messages + messages_of event) }
{
    taken.messages += messages_of(&event);
    taken.events.push(event)?;
    Ok(())
}

/// Takes a line behind the first: adds its event to those that were taken.
pub(crate) fn take_line(
    alloc: Global,
    checked: &Checked,
    opened: Opened<'_>,
    taken: &mut Taken,
    line: &[u8],
) -> Result<(), LineEnd>
    requires opened { IsOpened checked.now opened }
    requires few { taken.old.messages ≤ length taken.old.events }
    requires one_line { ¬ Contains line.now 10 }
    ensures adds { OnOk result (Adds checked.now opened.entry taken.old line.now taken.new) }
    ensures wrong { IfErr result (EndsWrong checked.now (state_at opened.entry taken.old) line.now) }
{
    let Some(request) = read_request(line) else {
        return Err(LineEnd::Fault(ScheduleKind::Form));
    };
    if taken.events.len() >= EVENTS as usize {
        return Err(LineEnd::Fault(ScheduleKind::TooMany));
    }
    let event = event_of(alloc, checked, opened, taken, request)?;
    add(taken, event)?;
    Ok(())
}
