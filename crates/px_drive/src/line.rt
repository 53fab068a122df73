//! Which command the words of a command line are.
ghost use Rattle.std.specs.Prelude.{◌≡◌, ◌<◌, ◌^◌, map, string_bytes, IfOk};
ghost use Rattle.px_drive.specs.Lines.{line_of, check_line, replay_line, eval_line, run_line, is_file, is_option, positionals, options, SplitsAt, calls_of, number_within, ReadsLine};

use crate::{CommandLine, End};
use itoa::Buffer;
use px_terms::limits::{DEFAULT_CALLS, MOST_CALLS};
use px_terms::{NoMemory, Text};
use sqlite_items::Items;
use std::alloc::Global;

/// The plain line that the words are. `Usage` exactly where they are none.
pub(crate) fn read_line(alloc: Global, words: &[String]) -> Result<CommandLine, End>
    ensures { ReadsLine (line_of (map string_bytes words.now)) result }
{
    match words {
        [command, args @ ..] => match command.as_str() {
            "check" => read_check(alloc, args),
            "replay" => read_replay(alloc, args),
            "eval" => read_eval(alloc, args),
            "run" => read_run(alloc, args),
            _ => Err(End::Usage),
        },
        [] => Err(End::Usage),
    }
}

/// The line of `check F`, by the words after `check`.
fn read_check(alloc: Global, args: &[String]) -> Result<CommandLine, End>
    ensures { ReadsLine (check_line (map string_bytes args.now)) result }
{
    match args {
        [file] if names_file(file.as_str()) => {
            let file = copy_word(alloc, file.as_str())?;
            Ok(CommandLine::Check { file })
        }
        _ => Err(End::Usage),
    }
}

/// The line of `replay F D`, by the words after `replay`.
fn read_replay(alloc: Global, args: &[String]) -> Result<CommandLine, End>
    ensures { ReadsLine (replay_line (map string_bytes args.now)) result }
{
    match args {
        [file, derivation] if names_file(file.as_str()) && names_file(derivation.as_str()) => {
            let file = copy_word(alloc, file.as_str())?;
            let derivation = copy_word(alloc, derivation.as_str())?;
            Ok(CommandLine::Replay { file, derivation })
        }
        _ => Err(End::Usage),
    }
}

/// The line of `eval F NAME V.. [--calls N]`, by the words after `eval`.
fn read_eval(alloc: Global, args: &[String]) -> Result<CommandLine, End>
    ensures { ReadsLine (eval_line (map string_bytes args.now)) result }
{
    let (words, options) = split_options(args);
    let Some(calls) = read_calls(options) else {
        return Err(End::Usage);
    };
    match words {
        [file, name, values @ ..] if names_file(file.as_str()) && names_file(name.as_str()) => {
            let file = copy_word(alloc, file.as_str())?;
            let name = copy_word(alloc, name.as_str())?;
            let values = copy_words(alloc, values)?;
            Ok(CommandLine::Eval {
                file,
                name,
                values,
                calls,
            })
        }
        _ => Err(End::Usage),
    }
}

/// The line of `run F D S [--calls N]`, by the words after `run`.
fn read_run(alloc: Global, args: &[String]) -> Result<CommandLine, End>
    ensures { ReadsLine (run_line (map string_bytes args.now)) result }
{
    let (words, options) = split_options(args);
    let Some(calls) = read_calls(options) else {
        return Err(End::Usage);
    };
    match words {
        [file, derivation, schedule]
            if names_file(file.as_str())
                && names_file(derivation.as_str())
                && names_file(schedule.as_str()) => {
            let file = copy_word(alloc, file.as_str())?;
            let derivation = copy_word(alloc, derivation.as_str())?;
            let schedule = copy_word(alloc, schedule.as_str())?;
            Ok(CommandLine::Run {
                file,
                derivation,
                schedule,
                calls,
            })
        }
        _ => Err(End::Usage),
    }
}

/// The words before the first that begins with `-`, and those from it on.
fn split_options(words: &[String]) -> (&[String], &[String])
    ensures positionals { map string_bytes result.0.now ≡ positionals (map string_bytes words.now) }
    ensures options { map string_bytes result.1.now ≡ options (map string_bytes words.now) }
{
    words.split_at(count_positionals(words))
}

/// How many words stand before the first that begins with `-`.
fn count_positionals(words: &[String]) -> usize
    ensures { SplitsAt (map string_bytes words.now) result }
{
    for count in 0..words.len() {
        if begins_option(words[count].as_str()) {
            return count;
        }
    }
    words.len()
}

/// The number of calls that the options ask for: without an option the default, else that of `--calls N`. None where they are
/// other words, or the number is outside its limits.
fn read_calls(options: &[String]) -> Option<u64>
    ensures { result ≡ calls_of (map string_bytes options.now) }
{
    match options {
        [] => Some(DEFAULT_CALLS),
        [word, number] if word.as_str() == "--calls" => {
            read_number(number.as_str(), 1, MOST_CALLS)
        }
        _ => None,
    }
}

/// The number that the word is in decimal without leading zeros. None where it is none, or outside these limits.
fn read_number(word: &str, least: u64, most: u64) -> Option<u64>
    ensures { result ≡ number_within least most word.now }
{
    let Ok(number) = word.parse::<u64>() else {
        return None;
    };
    let mut digits = Buffer::new();
    if digits.format(number) == word && least <= number && number <= most {
        Some(number)
    } else {
        None
    }
}

/// Whether a word begins an option.
fn begins_option(word: &str) -> bool
    ensures { result ≡ is_option word.now }
{
    match word.as_bytes() {
        [first, ..] => *first == b'-',
        [] => false,
    }
}

/// Whether a word can name a file: it isn't empty and doesn't begin with `-`.
fn names_file(word: &str) -> bool
    ensures { result ≡ is_file word.now }
{
    match word.as_bytes() {
        [first, ..] => *first != b'-',
        [] => false,
    }
}

/// A copy of a word.
fn copy_word(alloc: Global, word: &str) -> Result<Text, NoMemory>
    ensures { IfOk result (λ text. text ≡ word.now) }
{
    Ok(Text::new(String::from_str(alloc, word)?))
}

/// A copy of each word.
fn copy_words(alloc: Global, words: &[String]) -> Result<Items<Text>, NoMemory>
    ensures { IfOk result (λ texts. texts ≡ map string_bytes words.now) }
{
    let mut texts = Items::new(alloc);
    for word in words {
        texts.push(copy_word(alloc, word.as_str())?)?;
    }
    Ok(texts)
}
