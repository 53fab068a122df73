//! The instructions of a term. They stand in the list from the last to the first, and a place is counted from the end of the
//! code, as the number of instructions from there on. A frame's locals are the definition's parameters, and then the fields that
//! the arms around a term bind, those of the outermost arm first.

ghost use Rattle.std.specs.Prelude.{◌≡◌, ◌+◌, ◌-◌, ◌++◌, ◌∷◌, [], length, map, reverse, IfOk, OnOk};
ghost use Rattle.px_terms.specs.Descent.{field_count as fields_of};
ghost use Rattle.px_machine.specs.Standing.{head_target, targets_of};
ghost use Rattle.px_compile.specs.Layout.{in_order, arms_code, arms_places, term_code};

use crate::number::number;
use crate::targets::{target, targets};
use px_base::NoMemory;
use px_machine::Instr;
use px_terms::{Fun, Program, Term};
use sqlite_items::{Items, at};
use std::alloc::Global;

/// What is around a term: the program, and how many locals the frame has there.
#[derive(Clone, Copy)]
pub(crate) struct Scope<'p> {
    pub(crate) program: &'p Program,
    pub(crate) locals: u32,
}

/// Puts an instruction in front of those that are there.
pub(crate) fn put(code: &mut Vec<Instr>, instr: Instr) -> Result<(), NoMemory>
    ensures { OnOk result (code.new.items ≡ code.old.items ++ instr ∷ []) }
{
    code.push(instr)?;
    Ok(())
}

/// The local that holds a pattern variable, which is counted from the last local. A typed term names only one that is there, so
/// nothing is cut off.
fn local_of(locals: u32, variable: u32) -> u32
    ensures { result ≡ locals - variable - 1 }
{
    locals.saturating_sub(variable).saturating_sub(1)
}

/// How many fields the constructor of this number has; 0 where there is none.
fn field_count(program: &Program, datatype: u32, con: usize) -> usize
    ensures { result ≡ fields_of program.now datatype con }
{
    let Some(data) = at(program.datatypes.as_slice(), datatype as usize) else {
        return 0;
    };
    let Some(constructor) = at(data.cons.as_slice(), con) else {
        return 0;
    };
    constructor.fields.len()
}

/// The instruction that calls a function on the last values, so many.
fn call(alloc: Global, fun: &Fun, funs: &[Fun], count: usize) -> Result<Instr, NoMemory>
    ensures { IfOk result (λ instr. instr ≡ Instr.Call (head_target fun.now.head) (targets_of funs.now) count) }
{
    Ok(Instr::Call {
        target: target(fun.head),
        funs: targets(alloc, funs)?,
        n: number(count)?,
    })
}

/// What is around an arm that binds so many fields. NoMemory where the machine cannot number the locals.
fn within<'p>(scope: &Scope<'p>, fields: u32) -> Result<Scope<'p>, NoMemory>
    ensures program { IfOk result (λ inner. inner.program.now ≡ scope.now.program.now) }
    ensures locals { IfOk result (λ inner. inner.locals ≡ scope.now.locals + fields) }
{
    match scope.locals.checked_add(fields) {
        Some(locals) => Ok(Scope {
            program: scope.program,
            locals,
        }),
        None => Err(NoMemory),
    }
}

/// Puts the code of a term in front: it pushes the term's value. After NoMemory a part of the code may be there. The stack grows
/// with the depth of the term.
#[cycle(emit)]
pub(crate) fn emit_term(
    alloc: Global,
    code: &mut Vec<Instr>,
    term: &Term,
    scope: &Scope,
) -> Result<(), NoMemory>
    ensures { OnOk result (reverse code.new.items ≡ term_code scope.now.program.now term.now scope.now.locals (reverse code.old.items)) }
{
    match term {
        Term::Free(number) => put(code, Instr::Local(*number)),
        Term::Bound(variable) => put(code, Instr::Local(local_of(scope.locals, *variable))),
        Term::Lit(word) => put(code, Instr::Lit(*word)),
        Term::Con {
            datatype,
            con,
            fields,
            ..
        } => {
            let made = Instr::Make {
                datatype: *datatype,
                con: *con,
                n: number(fields.len())?,
            };
            put(code, made)?;
            emit_terms(alloc, code, fields.as_slice(), scope)
        }
        Term::Call { fun, funs, args } => {
            put(code, call(alloc, fun, funs.as_slice(), args.len())?)?;
            emit_terms(alloc, code, args.as_slice(), scope)
        }
        Term::Match {
            on,
            datatype,
            arms,
            ..
        } => {
            let places = emit_arms(alloc, code, arms.as_slice(), *datatype, scope)?;
            put(code, Instr::Branch(places))?;
            emit_term(alloc, code, on.get(), scope)
        }
    }
}

/// Puts the code of terms in front: it pushes their values in order.
#[cycle(emit)]
fn emit_terms(
    alloc: Global,
    code: &mut Vec<Instr>,
    terms: &[Term],
    scope: &Scope,
) -> Result<(), NoMemory>
    ensures { OnOk result (reverse code.new.items ≡ in_order (map (term_code scope.now.program.now) terms.now) scope.now.locals (reverse code.old.items)) }
{
    for index in (0..terms.len()).rev() {
        emit_term(alloc, code, &terms[index], scope)?;
    }
    Ok(())
}

/// Puts the code of a match's arms in front, and gives the place of each. An arm pushes its value, forgets the fields that it
/// binds, and goes on behind the last arm.
#[cycle(emit)]
fn emit_arms(
    alloc: Global,
    code: &mut Vec<Instr>,
    arms: &[Term],
    datatype: u32,
    scope: &Scope,
) -> Result<Items<u32>, NoMemory>
    ensures code { OnOk result (reverse code.new.items ≡ arms_code scope.now.program.now datatype 0 (map (term_code scope.now.program.now) arms.now) scope.now.locals (length code.old.items) (reverse code.old.items)) }
    ensures places { IfOk result (λ places. places ≡ arms_places scope.now.program.now datatype 0 (map (term_code scope.now.program.now) arms.now) scope.now.locals (length code.old.items) (reverse code.old.items)) }
{
    let end = number(code.len())?;
    let mut places = Vec::new(alloc);
    for con in (0..arms.len()).rev() {
        let fields = number(field_count(scope.program, datatype, con))?;
        put(code, Instr::Jump(end))?;
        put(code, Instr::Forget(fields))?;
        emit_term(alloc, code, &arms[con], &within(scope, fields)?)?;
        places.push(number(code.len())?)?;
    }
    places.reverse();
    Ok(Items::from_vec(places))
}
