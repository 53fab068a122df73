//! What is done at a term whose parts are normal: it is rewritten by a fact, selected, compared, or led on from the body of what
//! it calls. Nothing is built that has no room.

ghost use Rattle.std.specs.Prelude.{◌≡◌, ◌↔◌, ◌<◌, ◌≤◌, IsTrue, if◌then◌else◌, nat_lt, IfOk, MatchOption, None, Some, length, slice_get, true};
ghost use Rattle.px_base.specs.declared.limits.TheConstants.{FACTS as MOST_FACTS, SEQUENT_NODES as MOST_NODES, SEQUENT_DEPTH as MOST_LEVELS};
ghost use Rattle.px_terms.specs.declared.term.Term.{out-Term};
ghost use Rattle.px_terms.specs.Steps.{truth_term};
ghost use Rattle.px_prover.specs.Deeds.{FirstRewrite, HasNoValueHead, compared as becomes, selected as selects, two_words};
ghost use Rattle.px_prover.specs.Normalising.{CalledUpTo, HasLevels, IsDone, IsFactDone, IsFirst, IsLimited, IsOwnDone, IsPermitted, IsRewriting, TakesUpTo, UsesToRewrite, body_if, comparison, live, step_if};

use crate::stages::Room;
use px_rewrite::{open_arm, size_of_arm};
use px_terms::{
    Equation, Fun, Head, Kind, NoMemory, Program, Sigma, Term, copy, copy_funs, copy_terms,
    copy_tys, depth, instance, same_term, size, size_of_instance,
};
use sqlite_items::{Items, at};
use std::alloc::Global;

/// What terms are normalised with: a program, and facts, each with whether it is used.
#[derive(Clone, Copy)]
pub(crate) struct Setting<'a> {
    pub(crate) program: &'a Program,
    pub(crate) facts: &'a [Equation],
    pub(crate) used: &'a [bool],
}

/// What is done: the term becomes another one by a step of this kind, or a call is led on from its body, or nothing is done.
#[derive(Drop)]
pub(crate) enum Deed {
    Takes { kind: Kind, term: Term },
    Leads { body: Term },
    Rests,
}

/// What is done at a term whose parts are normal, where a unit is left and there is room for what it becomes. It takes memory,
/// and fails only where there is none.
pub(crate) fn deed_at(
    alloc: Global,
    setting: &Setting,
    t: &Term,
    room: Room,
) -> Result<Deed, NoMemory>
    requires few { length setting.now.facts.now ≤ MOST_FACTS }
    requires limited { IsLimited room }
    ensures { IfOk result (IsDone setting.now t.now room) }
{
    let first = first_deed(alloc, setting, t, nodes_of(room))?;
    Ok(permitted(first, room))
}

/// The nodes that there is room for: none where no unit is left.
fn nodes_of(room: Room) -> u64
    ensures { result ≡ (if nat_lt 0 room.units then room.nodes else 0) }
{
    if room.units > 0 { room.nodes } else { 0 }
}

/// What is done, where a unit is left and it needs no more levels than there are.
fn permitted(first: Deed, room: Room) -> Deed
    requires { room.levels ≤ MOST_LEVELS }
    ensures { IsPermitted room first result }
{
    if room.units > 0 && has_levels(&first, room.levels) {
        first
    } else {
        Deed::Rests
    }
}

/// The first that is to be done at a term; nothing where that has more nodes than these.
fn first_deed(alloc: Global, setting: &Setting, t: &Term, nodes: u64) -> Result<Deed, NoMemory>
    requires few { length setting.now.facts.now ≤ MOST_FACTS }
    requires limited { nodes ≤ MOST_NODES }
    ensures { IfOk result (IsFirst setting.now t.now nodes) }
{
    match rewritten(setting, t) {
        Some(number) => rewrite(alloc, setting, number, nodes),
        None => own_deed(alloc, setting.program, t, nodes),
    }
}

/// What is done needs no more levels than these.
fn has_levels(first: &Deed, levels: u32) -> bool
    requires { levels ≤ MOST_LEVELS }
    ensures { IsTrue result ↔ HasLevels levels first.now }
{
    match first {
        Deed::Takes { term, .. } => depth(term) <= levels,
        Deed::Leads { body } => depth(body) <= levels,
        Deed::Rests => true,
    }
}

/// The lowest used fact that rewrites the term: it is its left side, neither a constructor nor a literal, and its right side is
/// another term. It takes no memory.
pub(crate) fn rewritten(setting: &Setting, t: &Term) -> Option<usize>
    ensures { MatchOption result (FirstRewrite (live setting.now) t.now None) (IsRewriting setting.now t.now) }
{
    if !has_no_value_head(t) {
        return None;
    }
    for number in 0..setting.facts.len() {
        if is_rewriting(setting, t, number) {
            return Some(number);
        }
    }
    None
}

/// The term is neither a constructor nor a literal.
fn has_no_value_head(t: &Term) -> bool
    ensures { IsTrue result ↔ HasNoValueHead (out-Term t.now) }
{
    match t {
        Term::Con { .. } => false,
        Term::Lit(_) => false,
        Term::Free(_) => true,
        Term::Bound(_) => true,
        Term::Call { .. } => true,
        Term::Match { .. } => true,
    }
}

/// The fact of this number is used, the term is its left side, and its right side is another one.
fn is_rewriting(setting: &Setting, t: &Term, number: usize) -> bool
    requires within { number < length setting.now.facts.now }
    ensures { IsTrue result ↔ UsesToRewrite setting.now t.now number }
{
    is_used(setting.used, number) && rewrites(&setting.facts[number], t)
}

/// The fact of this number is used.
pub(crate) fn is_used(used: &[bool], number: usize) -> bool
    ensures { IsTrue result ↔ (slice_get used.now number ≡ Some true) }
{
    match at(used, number) {
        Some(is_used) => *is_used,
        None => false,
    }
}

/// The term is the left side of the fact, and its right side is another one.
fn rewrites(fact: &Equation, t: &Term) -> bool
    ensures { IsTrue result ↔ ((fact.now.left ≡ t.now) × ¬ (t.now ≡ fact.now.right)) }
{
    same_term(&fact.left, t) && !same_term(t, &fact.right)
}

/// The right side of the fact of this number; nothing where it has more nodes than these.
fn rewrite(alloc: Global, setting: &Setting, number: usize, nodes: u64) -> Result<Deed, NoMemory>
    requires within { number < length setting.now.facts.now }
    requires few { length setting.now.facts.now ≤ MOST_FACTS }
    requires limited { nodes ≤ MOST_NODES }
    ensures { IfOk result (IsFactDone setting.now.facts.now number nodes) }
{
    let to = &setting.facts[number].right;
    if size(to) > nodes {
        return Ok(Deed::Rests);
    }
    Ok(Deed::Takes {
        kind: Kind::Fact {
            number: number as u32,
            left_to_right: true,
        },
        term: copy(alloc, to)?,
    })
}

/// What is done at a term by itself; nothing where that has more nodes than these.
fn own_deed(alloc: Global, program: &Program, t: &Term, nodes: u64) -> Result<Deed, NoMemory>
    requires limited { nodes ≤ MOST_NODES }
    ensures { IfOk result (IsOwnDone program.now t.now nodes) }
{
    match t {
        Term::Match { on, arms, .. } => Ok(takes_if(
            Kind::Select,
            selected(alloc, program, on.get(), arms.as_slice(), nodes)?,
        )),
        Term::Call { fun, funs, args } => match fun.head {
            Head::Def(number) => {
                let sigma = sigma_of(alloc, fun, funs.as_slice(), args.as_slice())?;
                Ok(leads_if(unfolded(alloc, program, number, &sigma, nodes)?))
            }
            Head::Wle => Ok(takes_if(Kind::Compare, compared(alloc, true, args.as_slice(), nodes))),
            Head::Weq => Ok(takes_if(
                Kind::Compare,
                compared(alloc, false, args.as_slice(), nodes),
            )),
            Head::FnVar(_) => Ok(Deed::Rests),
        },
        Term::Free(_) | Term::Bound(_) | Term::Lit(_) | Term::Con { .. } => Ok(Deed::Rests),
    }
}

/// What it becomes by a step of this kind, if anything.
fn takes_if(kind: Kind, term: Option<Term>) -> Deed
    ensures { result ≡ step_if kind term }
{
    match term {
        Some(term) => Deed::Takes { kind, term },
        None => Deed::Rests,
    }
}

/// What it is led on from, if anything.
fn leads_if(body: Option<Term>) -> Deed
    ensures { result ≡ body_if body }
{
    match body {
        Some(body) => Deed::Leads { body },
        None => Deed::Rests,
    }
}

/// The arm of these that a match takes on this term, with the fields put in; none where it is no constructor of theirs, or where
/// that has more nodes than these. It takes memory, and fails only where there is none.
pub(crate) fn selected(
    alloc: Global,
    program: &Program,
    on: &Term,
    arms: &[Term],
    nodes: u64,
) -> Result<Option<Term>, NoMemory>
    requires limited { nodes ≤ MOST_NODES }
    ensures { IfOk result (TakesUpTo nodes (selects program.now arms.now (out-Term on.now))) }
{
    let Term::Con { con, fields, .. } = on else {
        return Ok(None);
    };
    let Some(arm) = at(arms, *con as usize) else {
        return Ok(None);
    };
    if size_of_arm(program, fields.as_slice(), arm) > nodes {
        return Ok(None);
    }
    Ok(Some(open_arm(alloc, program, fields.as_slice(), arm)?))
}

/// What a call puts in for the variables of a definition.
fn sigma_of(alloc: Global, fun: &Fun, funs: &[Fun], args: &[Term]) -> Result<Sigma, NoMemory>
    ensures { IfOk result (λ sigma. sigma ≡ record { types = fun.now.types; funs = funs.now; terms = args.now }) }
{
    Ok(Sigma {
        types: copy_tys(alloc, fun.types.as_slice())?,
        funs: copy_funs(alloc, funs)?,
        terms: copy_terms(alloc, args)?,
    })
}

/// The body of the definition of this number with these put in; none where there is none, or where that has more nodes than
/// these.
fn unfolded(
    alloc: Global,
    program: &Program,
    number: u32,
    sigma: &Sigma,
    nodes: u64,
) -> Result<Option<Term>, NoMemory>
    requires limited { nodes ≤ MOST_NODES }
    ensures { IfOk result (CalledUpTo nodes program.now number sigma.now) }
{
    let Some(def) = at(program.defs.as_slice(), number as usize) else {
        return Ok(None);
    };
    if size_of_instance(&def.body, sigma) > nodes {
        return Ok(None);
    }
    Ok(Some(instance(alloc, &def.body, sigma)?))
}

/// The truth of a comparison, by order or by equality, where these are two literals; none where that has more nodes than these.
/// It takes no memory.
fn compared(alloc: Global, by_order: bool, args: &[Term], nodes: u64) -> Option<Term>
    ensures { TakesUpTo nodes (becomes (comparison by_order) args.now) result }
{
    let Some((first, second)) = two_literals(args) else {
        return None;
    };
    if nodes == 0 {
        return None;
    }
    let holds = if by_order {
        first <= second
    } else {
        first == second
    };
    Some(truth(alloc, holds))
}

/// The two words, where these are two literals. It takes no memory.
fn two_literals(args: &[Term]) -> Option<(u64, u64)>
    ensures { result ≡ two_words args.now }
{
    let [first, second] = args else {
        return None;
    };
    let Term::Lit(first) = first else {
        return None;
    };
    let Term::Lit(second) = second else {
        return None;
    };
    Some((*first, *second))
}

/// The constructor `True` where it holds, else `False`.
fn truth(alloc: Global, holds: bool) -> Term
    ensures { result ≡ truth_term holds }
{
    Term::Con {
        datatype: 0,
        con: if holds { 1 } else { 0 },
        types: Items::new(alloc),
        fields: Items::new(alloc),
    }
}
