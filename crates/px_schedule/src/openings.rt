//! The first line of a schedule.
ghost use Rattle.std.specs.Prelude.{ℕ, [], Contains, MatchOption, IfOk, IfErr};
ghost use Rattle.px_base.specs.Lawful.{IsLawful};
ghost use Rattle.px_schedule.specs.Schedules.{start, IsDeclaration, IsKept, IsWrong};
ghost use Rattle.px_schedule.specs.Fields.{IsOpened, IsFoundReplica, opened_state};

use crate::commands::read_opening;
use crate::constructors::place;
use crate::events::Opened;
use crate::schedule_end::ScheduleKind;
use px_terms::limits::REPLICAS;
use px_terms::{Program, Ty};
use sqlite_items::at;

/// A replica declaration: its number, and the type of its state.
#[derive(Clone, Copy)]
pub(crate) struct FoundReplica<'p> {
    pub(crate) number: u32,
    pub(crate) state: &'p Ty,
}

/// The replica declaration that has this name.
fn find_replica<'p>(program: &'p Program, name: &[u8]) -> Option<FoundReplica<'p>>
    requires lawful { IsLawful program.now.names }
    ensures { MatchOption result ((n : ℕ) → ¬ IsDeclaration program.now name.now n) (IsFoundReplica program.now name.now) }
{
    let Some(number) = place(program.names.replicas.as_slice(), name) else {
        return None;
    };
    let Some(replica) = at(program.replicas.as_slice(), number) else {
        return None;
    };
    let Ok(number) = u32::try_from(number) else {
        return None;
    };
    Some(FoundReplica {
        number,
        state: &replica.state,
    })
}

/// What the first line opens, or what it breaks first.
pub(crate) fn open_replicas<'p>(
    program: &'p Program,
    line: &[u8],
) -> Result<Opened<'p>, ScheduleKind>
    requires lawful { IsLawful program.now.names }
    requires one_line { ¬ Contains line.now 10 }
    ensures opened { IfOk result (λ opened. IsOpened program.now opened × IsKept program.now start line.now (opened_state opened) []) }
    ensures wrong { IfErr result (IsWrong program.now start line.now) }
{
    let Some(opening) = read_opening(line) else {
        return Err(ScheduleKind::Form);
    };
    let Some(found) = find_replica(program, opening.name) else {
        return Err(ScheduleKind::UnknownReplicaType);
    };
    if opening.count < 1 {
        return Err(ScheduleKind::TooMany);
    }
    if opening.count > u64::from(REPLICAS) {
        return Err(ScheduleKind::TooMany);
    }
    Ok(Opened {
        declaration: found.number,
        count: opening.count as u32,
        state: found.state,
    })
}
