//! Normalising a term, within units and room. It goes over a term once for each time that it is normalised, and no size is
//! counted but of a term at which something is done, and of what it becomes.

ghost use Rattle.std.specs.Prelude.{◌≡◌, ◌++◌, ◌≤◌, ℕ, IfOk, List, map};
ghost use Rattle.std.specs.Option.{is_some, option_copied};
ghost use Rattle.px_terms.specs.declared.term.Term.{Term as Tree, out-Term};
ghost use Rattle.px_prover.specs.Deeds.{selected as selects};
ghost use Rattle.px_prover.specs.Norms.{match_of, stop_of};
ghost use Rattle.px_prover.specs.Normalising.{IsLimited, stops_in};
ghost use Rattle.px_prover.specs.Turning.{AreLeft, AreNormalised, HasLimits, HasRoom, HaveRoom, IsAfter, IsAfterSelect, IsBehind, IsChosen, IsFrame, IsLed, IsLeftAt, IsMatch, IsNormalised, IsParted, IsTurn, IsUnparted};

use crate::deeds::{Deed, Setting, deed_at, selected};
use crate::stages::{
    Left, Normal, Parted, Parts, Room, Stage, StopTree, no_stops, one_stage, push_below,
};
use crate::stops::inner;
use px_terms::{
    Kind, NoMemory, Term, copy, copy_fun, copy_funs, copy_terms, copy_tys, depth, size,
};
use sqlite_items::{Boxed, Items, at};
use std::alloc::Global;

/// What becomes of a term whose parts are normal: another one, by these steps; or it stays, and what blocked its lead.
#[derive(Drop)]
enum Turn {
    Goes {
        left: Left,
        term: Term,
        stages: Items<Stage>,
    },
    Rests {
        stop: Option<Term>,
    },
}

/// How a lead ends: at a term that is no match, by these steps; or blocked.
#[derive(Drop)]
enum LeadEnd {
    Freed {
        left: Left,
        term: Term,
        stages: Items<Stage>,
    },
    Blocked {
        stop: Option<Term>,
    },
}

/// The normal form of the term: its parts are normalised from left to right, and then the first that is to be done at it is
/// done, over and over. It takes memory, and fails only where there is none; its calls nest as deep as the levels.
#[cycle(norm)]
pub(crate) fn norm(
    alloc: Global,
    setting: &Setting,
    t: &Term,
    left: Left,
    levels: u32,
) -> Result<Normal, NoMemory>
    requires fits { HasRoom setting.now t.now left levels }
    ensures { IfOk result (IsNormalised setting.now t.now left levels) }
{
    let mut parted = norm_parts(alloc, setting, t, left, levels)?;
    'turns: loop {
        match turned(alloc, setting, &parted.term, parted.left, levels)? {
            Turn::Rests { stop } => return left_at(alloc, parted, stop),
            Turn::Goes { left, term, stages } => {
                let next = norm_parts(alloc, setting, &term, left, levels)?;
                parted = joined(parted.stages, stages, next)?;
            }
        }
    }
}

/// The term with its steps behind those before it.
fn joined(before: Items<Stage>, steps: Items<Stage>, next: Parted) -> Result<Parted, NoMemory>
    ensures { IfOk result (IsBehind before steps next) }
{
    let Parted {
        left,
        term,
        parts,
        stages,
    } = next;
    let mut all = before;
    all.append(steps)?;
    all.append(stages)?;
    Ok(Parted {
        left,
        term,
        parts,
        stages: all,
    })
}

/// The term with its parts normalised from left to right.
#[cycle(norm)]
fn norm_parts(
    alloc: Global,
    setting: &Setting,
    t: &Term,
    left: Left,
    levels: u32,
) -> Result<Parted, NoMemory>
    requires fits { HasRoom setting.now t.now left levels }
    ensures { IfOk result (IsParted setting.now t.now left levels) }
{
    match t {
        Term::Free(number) => Ok(unparted(alloc, left, Term::Free(*number))),
        Term::Bound(number) => Ok(unparted(alloc, left, Term::Bound(*number))),
        Term::Lit(word) => Ok(unparted(alloc, left, Term::Lit(*word))),
        Term::Con {
            datatype,
            con,
            types,
            fields,
        } => {
            let types = copy_tys(alloc, types.as_slice())?;
            let parts = norm_each(alloc, setting, fields.as_slice(), left, levels - 1)?;
            let Parts {
                left,
                terms,
                stops,
                stages,
            } = parts;
            let term = Term::Con {
                datatype: *datatype,
                con: *con,
                types,
                fields: terms,
            };
            Ok(Parted {
                left,
                term,
                parts: stops,
                stages,
            })
        }
        Term::Call { fun, funs, args } => {
            let fun = copy_fun(alloc, fun)?;
            let funs = copy_funs(alloc, funs.as_slice())?;
            let parts = norm_each(alloc, setting, args.as_slice(), left, levels - 1)?;
            let Parts {
                left,
                terms,
                stops,
                stages,
            } = parts;
            let term = Term::Call {
                fun,
                funs,
                args: terms,
            };
            Ok(Parted {
                left,
                term,
                parts: stops,
                stages,
            })
        }
        Term::Match {
            on,
            datatype,
            types,
            arms,
        } => {
            let types = copy_tys(alloc, types.as_slice())?;
            let arms = copy_terms(alloc, arms.as_slice())?;
            let normal = norm(alloc, setting, on.get(), left, levels - 1)?;
            let Normal {
                left,
                term,
                stops,
                stages,
            } = normal;
            let mut parts = Items::new(alloc);
            parts.push(stops)?;
            let mut all = Items::new(alloc);
            push_below(&mut all, 0, stages)?;
            let on = Boxed::new(alloc, term)?;
            let term = Term::Match {
                on,
                datatype: *datatype,
                types,
                arms,
            };
            Ok(Parted {
                left,
                term,
                parts,
                stages: all,
            })
        }
    }
}

/// A term without parts.
fn unparted(alloc: Global, left: Left, term: Term) -> Parted
    ensures { IsUnparted left term result }
{
    Parted {
        left,
        term,
        parts: Items::new(alloc),
        stages: Items::new(alloc),
    }
}

/// The terms, parts of one term, normalised from left to right, each with what the ones before it leave.
#[cycle(norm)]
fn norm_each(
    alloc: Global,
    setting: &Setting,
    parts: &[Term],
    left: Left,
    levels: u32,
) -> Result<Parts, NoMemory>
    requires fit { HaveRoom setting.now parts.now left levels }
    ensures are { (layer : List Tree → Tree) (nodes : ℕ) (deep : ℕ) → IsFrame layer nodes deep → deep ≤ levels → IfOk result (AreNormalised setting.now layer parts.now left levels) }
    ensures left { IfOk result (λ all. AreLeft parts.now left levels all.left all.terms) }
{
    let mut left = left;
    let mut terms = Items::new(alloc);
    let mut stops = Items::new(alloc);
    let mut stages = Items::new(alloc);
    for number in 0..parts.len() {
        let normal = norm(alloc, setting, &parts[number], left, levels)?;
        left = normal.left;
        terms.push(normal.term)?;
        stops.push(normal.stops)?;
        push_below(&mut stages, number as u32, normal.stages)?;
    }
    Ok(Parts {
        left,
        terms,
        stops,
        stages,
    })
}

/// What becomes of a term whose parts are normal. A lead that is blocked gives its units back.
#[cycle(norm)]
fn turned(
    alloc: Global,
    setting: &Setting,
    t: &Term,
    left: Left,
    levels: u32,
) -> Result<Turn, NoMemory>
    requires fits { HasRoom setting.now t.now left levels }
    ensures { IfOk result (IsTurn setting.now t.now left levels) }
{
    let nodes = left.spare + size(t);
    let room = Room {
        units: left.units,
        nodes,
        levels,
    };
    match deed_at(alloc, setting, t, room)? {
        Deed::Rests => Ok(Turn::Rests { stop: None }),
        Deed::Takes { kind, term } => Ok(Turn::Goes {
            left: left_after(room, &term),
            term,
            stages: one_stage(alloc, kind)?,
        }),
        Deed::Leads { body } => {
            let left = left_after(room, &body);
            match lead(alloc, setting, body, left, levels)? {
                LeadEnd::Blocked { stop } => Ok(Turn::Rests { stop }),
                LeadEnd::Freed { left, term, stages } => {
                    let mut all = one_stage(alloc, Kind::Unfold)?;
                    all.append(stages)?;
                    Ok(Turn::Goes {
                        left,
                        term,
                        stages: all,
                    })
                }
            }
        }
    }
}

/// What is left of the room where it is this term that stands there, by a step more.
fn left_after(room: Room, t: &Term) -> Left
    requires { HasLimits room t.now }
    ensures { IsAfter room t.now result }
{
    Left {
        units: room.units - 1,
        spare: room.nodes - size(t),
    }
}

/// The lead from this term: while it is a match its scrutinee is normalised, and its arm selected.
#[cycle(norm)]
fn lead(
    alloc: Global,
    setting: &Setting,
    t: Term,
    left: Left,
    levels: u32,
) -> Result<LeadEnd, NoMemory>
    requires fits { HasRoom setting.now t left levels }
    ensures { IfOk result (IsLed setting.now t left levels) }
{
    if is_match(&t) {
        return lead_match(alloc, setting, &t, left, levels);
    }
    Ok(LeadEnd::Freed {
        left,
        term: t,
        stages: Items::new(alloc),
    })
}

/// The term is a match.
fn is_match(t: &Term) -> bool
    ensures { result ≡ is_some (match_of (out-Term t.now)) }
{
    match t {
        Term::Match { .. } => true,
        Term::Free(_) | Term::Bound(_) | Term::Lit(_) | Term::Con { .. } | Term::Call { .. } =>
            false,
    }
}

/// The lead from a match.
#[cycle(norm)]
fn lead_match(
    alloc: Global,
    setting: &Setting,
    t: &Term,
    left: Left,
    levels: u32,
) -> Result<LeadEnd, NoMemory>
    requires fits { HasRoom setting.now t.now left levels }
    requires is_match { IsMatch t.now }
    ensures { IfOk result (IsLed setting.now t.now left levels) }
{
    let Term::Match { on, arms, .. } = t else {
        unreachable!()
    };
    let nodes = left.spare + size(t);
    let normal = norm(alloc, setting, on.get(), left, levels - 1)?;
    let room = Room {
        units: normal.left.units,
        nodes,
        levels,
    };
    match chosen(alloc, setting, &normal.term, arms.as_slice(), room)? {
        None => {
            let stop = copy_stop(alloc, inner(&normal.term, &normal.stops))?;
            Ok(LeadEnd::Blocked { stop })
        }
        Some(next) => {
            let left = left_after(room, &next);
            let end = lead(alloc, setting, next, left, levels)?;
            after_select(alloc, normal.stages, end)
        }
    }
}

/// The arm that a match takes on this term, where a unit is left and there is room for it.
fn chosen(
    alloc: Global,
    setting: &Setting,
    on: &Term,
    arms: &[Term],
    room: Room,
) -> Result<Option<Term>, NoMemory>
    requires limited { IsLimited room }
    ensures { IfOk result (IsChosen room (selects setting.now.program.now arms.now (out-Term on.now))) }
{
    if room.units == 0 {
        return Ok(None);
    }
    let Some(arm) = selected(alloc, setting.program, on, arms, room.nodes)? else {
        return Ok(None);
    };
    Ok(if depth(&arm) <= room.levels {
        Some(arm)
    } else {
        None
    })
}

/// The end of a lead, behind the steps of a scrutinee and the selection of an arm.
fn after_select(alloc: Global, scrutinee: Items<Stage>, end: LeadEnd) -> Result<LeadEnd, NoMemory>
    ensures { IfOk result (IsAfterSelect scrutinee end) }
{
    match end {
        LeadEnd::Blocked { stop } => Ok(LeadEnd::Blocked { stop }),
        LeadEnd::Freed { left, term, stages } => {
            let mut all = Items::new(alloc);
            push_below(&mut all, 0, scrutinee)?;
            all.push(Stage::Here(Kind::Select))?;
            all.append(stages)?;
            Ok(LeadEnd::Freed {
                left,
                term,
                stages: all,
            })
        }
    }
}

/// A term at which nothing is done, with what blocked its lead: a match is blocked at what its scrutinee is.
fn left_at(alloc: Global, parted: Parted, led: Option<Term>) -> Result<Normal, NoMemory>
    ensures { IfOk result (IsLeftAt parted led) }
{
    let Parted {
        left,
        term,
        parts,
        stages,
    } = parted;
    let own = own_stop(alloc, &term, parts.as_slice(), led)?;
    Ok(Normal {
        left,
        term,
        stops: StopTree { own, parts },
        stages,
    })
}

/// What a term at which nothing is done is blocked at.
fn own_stop(
    alloc: Global,
    t: &Term,
    parts: &[StopTree],
    led: Option<Term>,
) -> Result<Option<Term>, NoMemory>
    ensures { IfOk result (λ own. own ≡ stop_of (out-Term t.now) (map stops_in parts.now) led) }
{
    let Term::Match { on, .. } = t else {
        return Ok(led);
    };
    match at(parts, 0) {
        Some(stops) => copy_stop(alloc, inner(on.get(), stops)),
        None => copy_stop(alloc, inner(on.get(), &no_stops(alloc))),
    }
}

/// A copy of what blocks.
fn copy_stop(alloc: Global, stop: Option<&Term>) -> Result<Option<Term>, NoMemory>
    ensures { IfOk result (λ copied. copied ≡ option_copied stop.entry) }
{
    match stop {
        Some(t) => Ok(Some(copy(alloc, t)?)),
        None => Ok(None),
    }
}
