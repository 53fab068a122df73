//! Numbers, names, types, functions and terms. What has no name, a match and a variable of a pattern print nothing; a row
//! that can be spelled has none of these.
ghost use Rattle.std.specs.Prelude.{◌≡◌, ◌++◌, map, OnOk};
ghost use Rattle.std.specs.Fmt.{decimal};
ghost use Rattle.px_derive.specs.Spelling.{name_at, constructors_at, commas, in_angles, in_parentheses, ty_text, head_text, fun_text, term_text};

use itoa::Buffer;
use px_base::{Head, Names, NoMemory, Text};
use px_terms::{Fun, Term, Ty};
use px_world::Bytes;
use sqlite_items::at;

/// Adds a number in decimal.
fn print_literal(out: &mut Bytes, number: u64) -> Result<(), NoMemory>
    ensures { OnOk result (out.new ≡ out.old ++ decimal number) }
{
    let mut digits = Buffer::new();
    out.extend_from_slice(digits.format(number).as_bytes())
}

/// Adds a number in decimal.
fn print_number(out: &mut Bytes, number: u32) -> Result<(), NoMemory>
    ensures { OnOk result (out.new ≡ out.old ++ decimal number) }
{
    print_literal(out, u64::from(number))
}

/// Adds a word, and then a number in decimal.
pub(crate) fn print_numbered(out: &mut Bytes, word: &[u8], number: u32) -> Result<(), NoMemory>
    ensures { OnOk result (out.new ≡ out.old ++ (word.now ++ decimal number)) }
{
    out.extend_from_slice(word)?;
    print_number(out, number)
}

/// Adds the name of a number.
pub(crate) fn print_name(out: &mut Bytes, names: &[Text], number: u32) -> Result<(), NoMemory>
    ensures { OnOk result (out.new ≡ out.old ++ name_at names.now number) }
{
    match at(names, number as usize) {
        Some(name) => out.extend_from_slice(name.as_str().as_bytes()),
        None => Ok(()),
    }
}

/// Adds the name of a constructor.
fn print_constructor(
    out: &mut Bytes,
    names: &Names,
    datatype: u32,
    con: u32,
) -> Result<(), NoMemory>
    ensures { OnOk result (out.new ≡ out.old ++ name_at (constructors_at names.now datatype) con) }
{
    match at(names.cons.as_slice(), datatype as usize) {
        Some(own) => print_name(out, own.as_slice(), con),
        None => Ok(()),
    }
}

/// Adds a type.
#[cycle(types)]
fn print_type(out: &mut Bytes, names: &Names, ty: &Ty) -> Result<(), NoMemory>
    ensures { OnOk result (out.new ≡ out.old ++ ty_text names.now ty.now) }
{
    match ty {
        Ty::Word => out.extend_from_slice(b"Word"),
        Ty::Var(number) => print_numbered(out, b"'", *number),
        Ty::Con { datatype, args } => {
            print_name(out, names.datatypes.as_slice(), *datatype)?;
            print_type_arguments(out, names, args.as_slice())
        }
    }
}

/// Adds type arguments, and nothing where there are none.
#[cycle(types)]
fn print_type_arguments(out: &mut Bytes, names: &Names, types: &[Ty]) -> Result<(), NoMemory>
    ensures { OnOk result (out.new ≡ out.old ++ in_angles (map (ty_text names.now) types.now)) }
{
    if types.is_empty() {
        return Ok(());
    }
    out.push(b'<')?;
    print_types(out, names, types)?;
    out.push(b'>')
}

/// Adds types, with commas between.
#[cycle(types)]
pub(crate) fn print_types(out: &mut Bytes, names: &Names, types: &[Ty]) -> Result<(), NoMemory>
    ensures { OnOk result (out.new ≡ out.old ++ commas (map (ty_text names.now) types.now)) }
{
    let [first, others @ ..] = types else {
        return Ok(());
    };
    print_type(out, names, first)?;
    for ty in others {
        out.push(b',')?;
        print_type(out, names, ty)?;
    }
    Ok(())
}

/// Adds a definition's name, a built-in's, or a function variable.
pub(crate) fn print_head(out: &mut Bytes, names: &Names, head: Head) -> Result<(), NoMemory>
    ensures { OnOk result (out.new ≡ out.old ++ head_text names.now head) }
{
    match head {
        Head::Def(number) => print_name(out, names.defs.as_slice(), number),
        Head::Wle => out.extend_from_slice(b"wle"),
        Head::Weq => out.extend_from_slice(b"weq"),
        Head::FnVar(number) => print_numbered(out, b"%", number),
    }
}

/// Adds a function with its type arguments.
fn print_fun(out: &mut Bytes, names: &Names, fun: &Fun) -> Result<(), NoMemory>
    ensures { OnOk result (out.new ≡ out.old ++ fun_text names.now fun.now) }
{
    print_head(out, names, fun.head)?;
    print_type_arguments(out, names, fun.types.as_slice())
}

/// Adds functions, with commas between.
pub(crate) fn print_funs(out: &mut Bytes, names: &Names, funs: &[Fun]) -> Result<(), NoMemory>
    ensures { OnOk result (out.new ≡ out.old ++ commas (map (fun_text names.now) funs.now)) }
{
    let [first, others @ ..] = funs else {
        return Ok(());
    };
    print_fun(out, names, first)?;
    for fun in others {
        out.push(b',')?;
        print_fun(out, names, fun)?;
    }
    Ok(())
}

/// Adds a term.
#[cycle(terms)]
pub(crate) fn print_term(out: &mut Bytes, names: &Names, term: &Term) -> Result<(), NoMemory>
    ensures { OnOk result (out.new ≡ out.old ++ term_text names.now term.now) }
{
    match term {
        Term::Free(number) => print_numbered(out, b"$", *number),
        Term::Lit(literal) => print_literal(out, *literal),
        Term::Con {
            datatype,
            con,
            types,
            fields,
        } => {
            print_constructor(out, names, *datatype, *con)?;
            print_type_arguments(out, names, types.as_slice())?;
            print_fields(out, names, fields.as_slice())
        }
        Term::Call { fun, funs, args } => {
            print_fun(out, names, fun)?;
            out.push(b'(')?;
            print_arguments(out, names, funs.as_slice(), args.as_slice())?;
            out.push(b')')
        }
        Term::Bound(_) | Term::Match { .. } => Ok(()),
    }
}

/// Adds a constructor's fields, and nothing where there are none.
#[cycle(terms)]
fn print_fields(out: &mut Bytes, names: &Names, fields: &[Term]) -> Result<(), NoMemory>
    ensures { OnOk result (out.new ≡ out.old ++ in_parentheses (map (term_text names.now) fields.now)) }
{
    if fields.is_empty() {
        return Ok(());
    }
    out.push(b'(')?;
    print_terms(out, names, fields)?;
    out.push(b')')
}

/// Adds a call's arguments, with commas between: first the functions, and then the terms.
#[cycle(terms)]
fn print_arguments(
    out: &mut Bytes,
    names: &Names,
    funs: &[Fun],
    args: &[Term],
) -> Result<(), NoMemory>
    ensures { OnOk result (out.new ≡ out.old ++ commas (map (fun_text names.now) funs.now ++ map (term_text names.now) args.now)) }
{
    if funs.is_empty() {
        return print_terms(out, names, args);
    }
    print_funs(out, names, funs)?;
    if args.is_empty() {
        return Ok(());
    }
    out.push(b',')?;
    print_terms(out, names, args)
}

/// Adds terms, with commas between.
#[cycle(terms)]
pub(crate) fn print_terms(out: &mut Bytes, names: &Names, terms: &[Term]) -> Result<(), NoMemory>
    ensures { OnOk result (out.new ≡ out.old ++ commas (map (term_text names.now) terms.now)) }
{
    let [first, others @ ..] = terms else {
        return Ok(());
    };
    print_term(out, names, first)?;
    for term in others {
        out.push(b',')?;
        print_term(out, names, term)?;
    }
    Ok(())
}
