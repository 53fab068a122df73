//! Functions that may stand for the function variables of a clause.

ghost use Rattle.std.specs.Prelude.{◌≡◌, ◌↔◌, [], ◌∷◌, IsTrue, map, length};
ghost use Rattle.px_terms.specs.declared.types.Ty.TheVariants as kinds;
ghost use Rattle.px_terms.specs.Types.{fn_type_instance, ty_instance, tys_instance};
ghost use Rattle.px_terms.specs.Typing.{AreTypes, IsFunction};
ghost use Rattle.px_terms.specs.Noting.{AreOpenArguments};
ghost use Rattle.px_terms.specs.Programs.{bool_type};

use crate::alike::{all_become, all_meet, becomes, meets};
use crate::formed::are_types;
use crate::instances::Filling;
use crate::known::{includes, known};
use crate::obligations::Obligations;
use px_terms::{Def, FnType, Fun, Head, Program, Ty};
use sqlite_items::{Items, at};
use std::alloc::Global;

/// Whether each function that is put in may stand for the function variable at its place, and there are as many of both. It
/// takes no memory.
pub(crate) fn are_open(
    alloc: Global,
    all: &Obligations<'_>,
    number: u32,
    filling: &Filling<'_>,
) -> bool
    ensures { IsTrue result ↔ AreOpenArguments all.now number filling.now.context.now filling.now.sigma.now.funs (map (fn_type_instance filling.now.sigma.now.types) filling.now.clause.now.funs) }
{
    let program = all.checked().program();
    let funs = filling.sigma.funs.as_slice();
    let takes = filling.clause.funs.as_slice();
    if funs.len() != takes.len() {
        return false;
    }
    for index in 0..funs.len() {
        let fun = &funs[index];
        let wanted = &takes[index];
        if !is_function(alloc, program, filling, fun, wanted) {
            return false;
        }
        let properties = known(all, number, filling.context.funs.as_slice(), fun.head);
        if !includes(properties, wanted.props) {
            return false;
        }
    }
    true
}

/// Whether the function takes no functions, and has the type with the types of the filling put in. It takes no memory.
fn is_function(
    alloc: Global,
    program: &Program,
    filling: &Filling<'_>,
    fun: &Fun,
    wanted: &FnType,
) -> bool
    ensures { let types = filling.now.sigma.now.types in IsTrue result ↔ IsFunction program.now filling.now.context.now fun.now [] (tys_instance types wanted.now.params) (ty_instance types wanted.now.result) }
{
    match fun.head {
        Head::Def(number) => match at(program.defs.as_slice(), number as usize) {
            Some(def) => {
                takes_types(program, filling.context.tparams, def, &fun.types)
                    && is_definition(def, &fun.types, wanted, &filling.sigma.types)
            }
            None => false,
        },
        Head::Wle | Head::Weq => {
            fun.types.is_empty() && is_comparison(alloc, wanted, &filling.sigma.types)
        }
        Head::FnVar(number) => match at(filling.context.funs.as_slice(), number as usize) {
            Some(own) => fun.types.is_empty() && is_variable(own, wanted, &filling.sigma.types),
            None => false,
        },
    }
}

/// Whether the definition takes no functions, and these types over so many type parameters. It takes no memory.
fn takes_types(program: &Program, tparams: u32, def: &Def, types: &Items<Ty>) -> bool
    ensures { IsTrue result ↔ ((length types.now ≡ def.now.tparams) × ((def.now.funs ≡ []) × AreTypes program.now tparams types.now)) }
{
    def.tparams as usize == types.len() && def.funs.is_empty() && are_types(types, program, tparams)
}

/// Whether the definition's type at the one types is the wanted type with the others put in. It takes no memory.
fn is_definition(def: &Def, types: &Items<Ty>, wanted: &FnType, others: &Items<Ty>) -> bool
    ensures { IsTrue result ↔ ((tys_instance types.now def.now.params ≡ tys_instance others.now wanted.now.params) × (ty_instance types.now def.now.result ≡ ty_instance others.now wanted.now.result)) }
{
    all_meet(&def.params, types, &wanted.params, others)
        && meets(&def.result, types, &wanted.result, others)
}

/// Whether the type with these types put in is that of a comparison of two words. It takes no memory.
fn is_comparison(alloc: Global, wanted: &FnType, types: &Items<Ty>) -> bool
    ensures { IsTrue result ↔ ((kinds.Word ∷ kinds.Word ∷ [] ≡ tys_instance types.now wanted.now.params) × (bool_type ≡ ty_instance types.now wanted.now.result)) }
{
    let word = Ty::Word;
    let truth = Ty::Con {
        datatype: 0,
        args: Items::new(alloc),
    };
    match wanted.params.as_slice() {
        [first, second] => {
            becomes(&word, first, types)
                && becomes(&word, second, types)
                && becomes(&truth, &wanted.result, types)
        }
        _ => false,
    }
}

/// Whether the type with these types put in is that of the function variable. It takes no memory.
fn is_variable(own: &FnType, wanted: &FnType, types: &Items<Ty>) -> bool
    ensures { IsTrue result ↔ ((own.now.params ≡ tys_instance types.now wanted.now.params) × (own.now.result ≡ ty_instance types.now wanted.now.result)) }
{
    all_become(&own.params, &wanted.params, types) && becomes(&own.result, &wanted.result, types)
}
