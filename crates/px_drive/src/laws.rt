//! What the sources of programs are, and what the table of causes says of every call, as functions whose contracts are
//! these laws.

ghost use Rattle.px_drive.specs.Laws.{OneSource, OneSourceFault, NeverBoth, SourceExtendsItself, SourceIsChecked, SourceIsNumbered, OneCall, OneNoCall, NeverCallAndNone, OneValueOfCall, PrintedIsText, AnswersAreTexts, ScopeFaultIsFirst, NeverRejected, OneRejection, AcceptedIsTrue, UsageByWords, DoneOrUsage, EndsAreNamed, SourceIsFaulty, FaultyIsSource, DoneIsChecked, DoneIsReplayed, RejectedIsRefused, RefusedIsRejected, DoneIsEvaluated, ArgumentsAreRefused, RefusedAreArguments, SpentIsAbove, AboveIsSpent, TooLongIsLonger, LongIsTooLong, LongIsNotReplayed, LongDerivationIsTooLong, RefusalsPrintNothing};

use px_derive::one_row;
use px_descent::{one_first_stuck, stuck_excludes_descent};
use px_lexer::one_list;
use px_parser::{one_tree, trees_are_fine};
use px_replay::{ends_are_derivations, one_state, partials_begin};
use px_schedule::one_value;
use px_scope::{
    each_name_is_listed, fault_is_first, names_are_lawful, names_rise, numberings_fit,
    one_numbering,
};
use px_soundness::derivations_are_sound;
use px_totality::{
    each_call_has_value, each_function_has_value, each_term_has_value, extensions_compose,
};
use px_types::{
    never_typed_and_broken, one_first_fault, one_program, programs_are_typed, programs_have_numbers,
};

/// A text is at most one program.
pub fn one_source()
    ensures { OneSource }
{
    one_list();
    one_tree();
    trees_are_fine();
    one_numbering();
    numberings_fit();
    one_program();
}

/// A text has at most one fault.
pub fn one_source_fault()
    ensures { OneSourceFault }
{
    one_list();
    px_lexer::one_fault();
    px_lexer::never_both();
    one_tree();
    trees_are_fine();
    px_parser::one_fault();
    px_parser::never_both();
    one_numbering();
    numberings_fit();
    px_scope::one_fault();
    px_scope::never_both();
    one_program();
    one_first_fault();
    never_typed_and_broken();
    one_first_stuck();
    stuck_excludes_descent();
}

/// No text is a program and has a fault.
pub fn never_both()
    ensures { NeverBoth }
{
    one_list();
    px_lexer::never_both();
    one_tree();
    trees_are_fine();
    px_parser::never_both();
    one_numbering();
    numberings_fit();
    px_scope::never_both();
    one_program();
    never_typed_and_broken();
    stuck_excludes_descent();
}

/// The program of a text is an extension of itself: it is typed, and every definition of it descends.
pub fn source_extends_itself()
    ensures { SourceExtendsItself }
{
    trees_are_fine();
    numberings_fit();
    programs_are_typed();
    extensions_compose();
}

/// The program of a text is checked: besides, its names are lawful and its parts can be numbered, and in each extension of it
/// each call and each typed term has exactly one value.
pub fn source_is_checked()
    ensures { SourceIsChecked }
{
    trees_are_fine();
    numberings_fit();
    names_are_lawful();
    programs_are_typed();
    programs_have_numbers();
    each_call_has_value();
    each_function_has_value();
    each_term_has_value();
}

/// The definitions of the program of a text, and the parameters of each, are numbered below 2^32.
pub fn source_is_numbered()
    ensures { SourceIsNumbered }
{
    trees_are_fine();
    numberings_fit();
}

/// In the program of a text a name and words are at most one call.
pub fn one_call()
    ensures { OneCall }
{
    source_is_checked();
    one_value();
}

/// In the program of a text a name and words are no call for at most one cause.
pub fn one_no_call()
    ensures { OneNoCall }
{
    source_is_checked();
}

/// In the program of a text no name and words are a call and are none.
pub fn never_call_and_none()
    ensures { NeverCallAndNone }
{
    source_is_checked();
}

/// In the program of a text a call has at most one value, with one number of calls.
pub fn one_value_of_call()
    ensures { OneValueOfCall }
{
    source_is_checked();
    source_extends_itself();
}

/// In the program of a text, what is printed of a value of a type, where it has at most `VALUE_NODES` nodes, is a text of that value of
/// the type.
pub fn printed_is_text()
    ensures { PrintedIsText }
{
    trees_are_fine();
    numberings_fit();
    px_schedule::printed_is_text();
}

/// In the program of a text, what is printed of the value of a call, where it has at most `VALUE_NODES` nodes, is a text of that value of
/// the definition's result type: it can be read again.
pub fn answers_are_texts()
    ensures { AnswersAreTexts }
{
    source_is_checked();
    source_extends_itself();
    printed_is_text();
}

/// A fault of scope is at the least byte of the text at which a name breaks a rule.
pub fn scope_fault_is_first()
    ensures { ScopeFaultIsFirst }
{
    names_rise();
    fault_is_first();
    each_name_is_listed();
}

/// No text is a derivation of a program and is rejected.
pub fn never_rejected()
    ensures { NeverRejected }
{
    ends_are_derivations();
    partials_begin();
}

/// Of the program of a text, a text is rejected at one line at most, for one reason.
pub fn one_rejection()
    ensures { OneRejection }
{
    ends_are_derivations();
    partials_begin();
    one_state();
    one_row();
    source_is_checked();
}

/// A derivation of the program of a text shows that each of its obligations holds, in every extension of the program, and the
/// program is one of these itself.
pub fn accepted_is_true()
    ensures { AcceptedIsTrue }
{
    source_extends_itself();
    derivations_are_sound();
}

/// `Usage` comes only where the words are no plain line; there nothing else comes but want of memory.
pub fn usage_is_by_words()
    ensures { UsageByWords }
{}

/// No words end `Done` in one call and `Usage` in another.
pub fn done_or_usage()
    ensures { DoneOrUsage }
{}

/// A line ends in no refusal that isn't named for its command.
pub fn ends_are_named()
    ensures { EndsAreNamed }
{}

/// Where a line ends with a fault of the program's text, the bytes that were read have it.
pub fn source_is_faulty()
    ensures { SourceIsFaulty }
{}

/// A program's text that is told, within its limit, and has a fault is refused for it, but for a fault of reading or want of
/// memory.
pub fn faulty_is_source()
    ensures { FaultyIsSource }
{
    one_source_fault();
    never_both();
}

/// Where `check` ends `Done`, the text is a program, and its counts were printed.
pub fn done_is_checked()
    ensures { DoneIsChecked }
{}

/// Where `replay` ends `Done`, the derivation is one of the program, and the number of obligations was printed.
pub fn done_is_replayed()
    ensures { DoneIsReplayed }
{}

/// Where `replay` ends `Rejected`, the bytes that were read are no derivation of the program, by the line and for the reason
/// that are told.
pub fn rejected_is_refused()
    ensures { RejectedIsRefused }
{
    never_rejected();
}

/// A derivation's text that is told, within its limit, and rejected of the program of a text that is told, within its limit, is
/// refused for it, but for a fault of reading or want of memory.
pub fn refused_is_rejected()
    ensures { RefusedIsRejected }
{
    one_source();
    never_both();
    never_rejected();
    one_rejection();
}

/// Where `eval` ends `Done`, the name and the words are a call of the program, and its value and its number of calls, which is within
/// the budget, were printed.
pub fn done_is_evaluated()
    ensures { DoneIsEvaluated }
{}

/// Where `eval` ends with a refusal of its arguments, the name and the words are no call of the program, for the cause that is told.
pub fn arguments_are_refused()
    ensures { ArgumentsAreRefused }
{}

/// Arguments that are no call of the program of a text that is told, within its limit, are refused for their cause, but for a fault of
/// reading or want of memory.
pub fn refused_are_arguments()
    ensures { RefusedAreArguments }
{
    one_source();
    never_both();
    one_no_call();
    never_call_and_none();
}

/// Where `eval` ends `Spent`, the event is 0, and the call takes more calls than the budget.
pub fn spent_is_above()
    ensures { SpentIsAbove }
{}

/// A call of the program of a text that is told, within its limit, that takes more calls than the budget ends `Spent`, but for a fault
/// of reading or want of memory.
pub fn above_is_spent()
    ensures { AboveIsSpent }
{
    one_source();
    never_both();
    one_call();
    never_call_and_none();
    one_value_of_call();
}

/// A text that is told is too long only where it has more bytes than its limit.
pub fn too_long_is_longer()
    ensures { TooLongIsLonger }
{}

/// A program that is told and has more bytes than its limit is too long, but for a fault or want of
/// memory.
pub fn long_is_too_long()
    ensures { LongIsTooLong }
{}

/// A derivation that is told and has more bytes than its limit is neither accepted nor rejected.
pub fn long_is_not_replayed()
    ensures { LongIsNotReplayed }
{}

/// Of a program that is told, within its limit, a derivation that is told and has more bytes than its limit is too long, but for
/// a fault of reading or want of memory.
pub fn long_derivation_is_too_long()
    ensures { LongDerivationIsTooLong }
{
    one_source();
    never_both();
}

/// A refusal prints nothing, but for a failed write.
pub fn refusals_print_nothing()
    ensures { RefusalsPrintNothing }
{}
