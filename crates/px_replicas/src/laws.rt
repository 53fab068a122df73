//! What the definitions say of every schedule, as functions whose contracts are these laws.
ghost use Rattle.px_replicas.specs.Laws.{HeldByCases, JoinOfASet, OneState, SameHeldSameState, OneNeed, OneOutput, LinesGoOn, DeclaredMergesJoin, SchedulesMayHappen, NextFits, LinesExist, StatesExist};

use px_totality::{each_call_has_value, each_term_has_value};

/// Nothing is held before the first event. An update adds its number at its replica, a delivery what the message holds, and all else nothing.
pub fn held_by_cases()
    ensures { HeldByCases }
{}

/// Where the merge joins, the join of updates depends on their set alone.
pub fn join_of_a_set()
    ensures { JoinOfASet }
{
    each_call_has_value();
    each_term_has_value();
}

/// What a replica holds is one list of numbers, with one join.
pub fn one_state()
    ensures { OneState }
{}

/// Replicas that hold the same updates have the same state.
pub fn same_held_same_state()
    ensures { SameHeldSameState }
{}

/// An event asks for one number of calls.
pub fn one_need()
    ensures { OneNeed }
{}

/// A schedule has one output, in which two lines with the same numbers show the same value.
pub fn one_output()
    ensures { OneOutput }
{}

/// The lines of one event more are the lines so far and what the event shows.
pub fn lines_go_on()
    ensures { LinesGoOn }
{}

/// Where each obligation of a checked program holds, the merges of its replica declarations join.
pub fn declared_merges_join()
    ensures { DeclaredMergesJoin }
{
    each_call_has_value();
}

/// The events of a schedule's text may happen one after the other.
pub fn schedules_may_happen()
    ensures { SchedulesMayHappen }
{}

/// Where a world stands for a schedule, the schedule's next event fits.
pub fn next_fits()
    ensures { NextFits }
{}

/// Where the merge joins, a schedule that may happen has its lines.
pub fn lines_exist()
    ensures { LinesExist }
{
    each_call_has_value();
    each_term_has_value();
}

/// Where the merge joins, each replica of a schedule that may happen has a state, after each of its events.
pub fn states_exist()
    ensures { StatesExist }
{
    each_call_has_value();
    each_term_has_value();
}
