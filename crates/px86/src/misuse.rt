//! What is said of words that ask for no command.

use crate::arguments::command_line;
use crate::command::{Bound, Command, CommandOption};
use crate::options::{
    asks_ends, count, demand_of, has_condition, has_question, has_several, has_value, is_given,
    lacks_condition, lacks_format, lacks_image, lacks_recovery, lacks_states, needs_condition,
    number, only_of, small_number, talks_in_json, value,
};
use clap::error::ErrorKind;
use clap::{ArgMatches, Error};
use std::alloc::{AllocError, Global};
use workers::MAX_SEATS;

/// Whether a text spells a number that an option may have.
fn is_within(text: &str, bound: Bound) -> bool {
    match bound {
        Bound::Long | Bound::Schedules => number(text).is_some(),
        Bound::Count => count(text).is_some(),
        Bound::Short => small_number(text).is_some(),
        Bound::Threads => matches!(number(text), Some(1..=MAX_SEATS)),
    }
}

/// What such a number is.
fn bound_text(bound: Bound) -> &'static str {
    match bound {
        Bound::Long => "a number below 2^64, in decimal digits",
        Bound::Count => "a number below 2^64, in decimal digits, or a number of millions as 20M",
        Bound::Schedules =>
            "a number in decimal digits, with --first and --runs together at most 2^32",
        Bound::Short => "a number below 2^32, in decimal digits",
        Bound::Threads => "a number from 1 to 64, in decimal digits",
    }
}

/// The value of an option that is given, and what it has to be, where that is a number and the value is none.
fn misfit<'a>(option: &CommandOption, matches: &ArgMatches<'a>) -> Option<(&'a str, Bound)> {
    let bound = option.number?;
    let text = value(matches, option.name)?;
    if is_within(text, bound) {
        None
    } else {
        Some((text, bound))
    }
}

/// Says of the first of these options whose number may not be that what it may be.
fn print_number<R: Eprint>(rt: &R, options: &[CommandOption], matches: &ArgMatches<'_>) {
    for option in options {
        if let Some((text, bound)) = misfit(option, matches) {
            let wanted = bound_text(bound);
            let _ = eprintln!(rt; "--{} takes {wanted}, and not '{text}'", option.name);
            return;
        }
    }
}

/// What is said where an image is to be explained, and there is no condition of images.
fn image_clash(matches: &ArgMatches<'_>) -> Option<&'static str> {
    if lacks_image(matches) {
        Some("--explain-image needs --all COND: it explains the image that breaks this")
    } else {
        None
    }
}

/// What is said where `images` is asked for one image and for all, or why writes are missing in an image that is not named.
fn images_clash(matches: &ArgMatches<'_>) -> Option<&'static str> {
    if has_value(matches, "set") {
        Some("--set may not be given with --count, --names, --all or --some")
    } else if lacks_image(matches) {
        Some("--explain-image needs --all COND or --set V..: it explains the image that these name")
    } else {
        None
    }
}

/// What is said where recovery is asked about, and is not explored.
fn recovery_clash(matches: &ArgMatches<'_>) -> Option<&'static str> {
    if lacks_recovery(matches) {
        Some("--before-crash may not be given with --recovered: recovery is not explored")
    } else {
        None
    }
}

/// What is said where no condition is asked of all runs.
fn condition_clash(matches: &ArgMatches<'_>, needs: &'static str) -> Option<&'static str> {
    if has_condition(matches) {
        None
    } else {
        Some(needs)
    }
}

/// What is said where a run is to be explained that breaks a condition, and there is none.
fn explained_clash(matches: &ArgMatches<'_>) -> Option<&'static str> {
    if lacks_condition(matches) {
        Some(
            "--explain-image needs --all, --ends or --recovered: it explains a run that breaks one",
        )
    } else {
        None
    }
}

/// What is said where a question of the program is named beside a condition, or `check` is to report what a condition alone is
/// reported with.
fn question_clash(matches: &ArgMatches<'_>) -> Option<&'static str> {
    if has_question(matches) && has_value(matches, "only") {
        Some(
            "--only names a question of the program: it may not be given with --all, --ends, --recovered or --images",
        )
    } else if !has_question(matches) && needs_condition(matches) {
        Some("--names and --as-steps need --all COND, --ends COND, --recovered COND or --images")
    } else {
        None
    }
}

/// What is said where a condition is asked of several files.
fn files_clash(matches: &ArgMatches<'_>) -> Option<&'static str> {
    if has_question(matches) && has_several(matches) {
        Some(
            "with --all, --ends, --recovered or --images one FILE may be given: several are asked their own questions",
        )
    } else {
        None
    }
}

/// What is said where `check` is asked of recovery that is not explored, why a run breaks no condition, or where a question of
/// the program and a condition are mixed up.
fn check_clash(matches: &ArgMatches<'_>) -> Option<&'static str> {
    let explained = if has_question(matches) {
        explained_clash(matches)
    } else {
        None
    };
    recovery_clash(matches)
        .or(explained)
        .or(question_clash(matches))
        .or(files_clash(matches))
}

/// What is said where a place is no place of a program.
fn site_clash(matches: &ArgMatches<'_>) -> Option<&'static str> {
    if only_of(matches).is_none() {
        Some(
            "--only takes a place as the report of `fences` writes it: 'cpu P main PLACE' or 'cpu P recover PLACE'",
        )
    } else {
        None
    }
}

/// What is said where `fences` is asked nothing, or of recovery where that is not explored, or of a place that is none.
fn fences_clash(matches: &ArgMatches<'_>) -> Option<&'static str> {
    let needs = "fences needs --all COND, --ends COND or --recovered COND";
    recovery_clash(matches)
        .or(condition_clash(matches, needs))
        .or(site_clash(matches))
}

/// What is said where `mend` is asked nothing, or of recovery where that is not explored.
fn mend_clash(matches: &ArgMatches<'_>) -> Option<&'static str> {
    let needs = "mend needs --all COND, --ends COND or --recovered COND";
    recovery_clash(matches).or(condition_clash(matches, needs))
}

/// What is said where `--lazy` is given with an option that asks for what has persisted.
fn lazy_clash(matches: &ArgMatches<'_>) -> Option<&'static str> {
    if !is_given(matches, "lazy") {
        None
    } else if has_value(matches, "crash-after") {
        Some(
            "--lazy may not be given with --crash-after: no turn persists what a crash is to leave",
        )
    } else if has_value(matches, "cond") {
        Some("--lazy may not be given with --cond: no turn persists what is asked of an end")
    } else if asks_ends(matches) {
        Some("--lazy may not be given with --ends or --recovered: no turn persists what is pending")
    } else {
        None
    }
}

/// What is said where `tally` is asked two questions.
fn tally_clash(matches: &ArgMatches<'_>) -> Option<&'static str> {
    let all = has_value(matches, "all");
    let ends = has_value(matches, "ends");
    match (all, ends, has_value(matches, "recovered")) {
        (true, true, _) | (true, _, true) | (_, true, true) => Some(
            "of --all, --ends and --recovered one alone may be given: tally counts what breaks that",
        ),
        _ => None,
    }
}

/// What is said where `hunt` is asked for two kinds of fault, or for none, or for an image of no condition, or for more than a lazy
/// schedule has.
fn hunt_clash(matches: &ArgMatches<'_>) -> Option<&'static str> {
    if !has_condition(matches) && !has_value(matches, "cond") {
        return Some(
            "hunt needs --all COND, what any crash may leave, --cond COND, where a schedule ends, or --ends COND or --recovered COND, an end to which it comes",
        );
    }
    if demand_of(matches).is_none() {
        return Some(
            "of --all, --cond, --ends and --recovered one alone may be given: hunt looks for what breaks that",
        );
    }
    image_clash(matches).or(lazy_clash(matches))
}

/// What is said where a conversation is asked for, and JSON, or a script from elsewhere.
fn talk_clash(matches: &ArgMatches<'_>) -> Option<&'static str> {
    if talks_in_json(matches) {
        Some("--interactive may not be given with --json: it answers in lines")
    } else if is_given(matches, "interactive") {
        Some(
            "--interactive may not be given with --steps or --no-steps: it reads the standard input",
        )
    } else {
        None
    }
}

/// What is said of options that may not be given together, or of which one is missing.
fn clash(command: Command, matches: &ArgMatches<'_>) -> Option<&'static str> {
    if lacks_format(matches) {
        return Some("--format takes gcc, the form of compilers, and may not be given with --json");
    }
    if has_value(matches, "steps") && is_given(matches, "no-steps") {
        return Some("--steps and --no-steps may not be given together");
    }
    match command {
        Command::Images => images_clash(matches),
        Command::Trace | Command::Next if lacks_states(matches) => {
            Some("--states needs --json: the report in lines has no states")
        }
        Command::Debug => talk_clash(matches),
        Command::Replay => lazy_clash(matches),
        Command::Tally => tally_clash(matches),
        Command::Hunt => hunt_clash(matches),
        Command::Fences => fences_clash(matches),
        Command::Mend => mend_clash(matches),
        Command::Check => check_clash(matches),
        _ => None,
    }
}

/// Says why no command is asked for by words that were parsed.
fn explain_matches<R: Eprint>(rt: &R, matches: &ArgMatches<'_>) {
    let Some((name, matches)) = matches.subcommand() else {
        return;
    };
    let Some(command) = Command::named(name) else {
        return;
    };
    match clash(command, matches) {
        Some(text) => {
            let _ = eprintln!(rt; "{text}");
        }
        None => print_number(rt, command.row().options, matches),
    }
    let _ = eprintln!(rt; "`px86 {name} --help` shows the options, with an example");
}

/// The option that a word gives: what is between `--` and `=`.
fn option_in(word: &str) -> Option<&str> {
    let option = word.strip_prefix("--")?;
    match option.split_once('=') {
        Some((name, _)) => Some(name),
        None => Some(option),
    }
}

/// Whether a command takes an option.
fn takes(command: &clap::Command<'_>, option: &str) -> bool {
    command
        .get_arguments()
        .iter()
        .any(|argument| argument.get_long() == Some(option))
}

/// The command of this name, if there is one.
fn subcommand<'p, 'a>(program: &'p clap::Command<'a>, name: &str) -> Option<&'p clap::Command<'a>> {
    for command in program.get_subcommands() {
        if command.get_name() == name {
            return Some(command);
        }
    }
    None
}

/// The command that the words name, if they name one: by the first word that is the name of one.
fn named<'p, 'a>(
    program: &'p clap::Command<'a>,
    words: &[String],
) -> Option<&'p clap::Command<'a>> {
    for word in words {
        let command = subcommand(program, word.as_str());
        if command.is_some() {
            return command;
        }
    }
    None
}

/// The first option that the words give and a command does not take.
fn foreign<'w>(command: &clap::Command<'_>, words: &'w [String]) -> Option<&'w str> {
    for word in words {
        match option_in(word.as_str()) {
            Some(option) if !takes(command, option) => return Some(option),
            _ => {}
        }
    }
    None
}

/// Appends the names of the commands that take an option. Whether there are any.
fn push_takers(
    text: &mut String,
    program: &clap::Command<'_>,
    option: &str,
) -> Result<bool, AllocError> {
    let mut any = false;
    for command in program.get_subcommands() {
        if takes(command, option) {
            write!(
                text,
                "{} `{}`",
                if any { "," } else { "" },
                command.get_name()
            )?;
            any = true;
        }
    }
    Ok(any)
}

/// What is said of the first option that the command which the words name does not take, where other commands of the program
/// take it.
fn foreign_text(alloc: Global, program: &clap::Command<'_>, words: &[String]) -> Option<String> {
    let command = named(program, words)?;
    let option = foreign(command, words)?;
    let name = command.get_name();
    let mut text = String::new(alloc);
    write!(
        text,
        "`{name}` does not take --{option}; of the commands these do:"
    )
    .ok()?;
    match push_takers(&mut text, program, option) {
        Ok(true) => Some(text),
        _ => None,
    }
}

/// What is said of the first option that is one of another command, if there is one.
fn foreign_option(alloc: Global, words: &[String]) -> Option<String> {
    let program = command_line(alloc).ok()?;
    let text = foreign_text(alloc, &program, words);
    drop(program);
    text
}

/// Says what is wrong with words that were not parsed: which commands take an option that this one does not; or what the
/// parser says.
fn explain_error<R: Print + Eprint>(rt: &R, alloc: Global, words: &[String], error: &Error) {
    let foreign = if error.kind() == ErrorKind::UnknownArgument {
        foreign_option(alloc, words)
    } else {
        None
    };
    match foreign {
        Some(text) => {
            let _ = eprintln!(rt; "{text}");
        }
        None => {
            let _ = error.print(rt);
        }
    }
}

/// Says on standard error why the words ask for no command: what the parser says of them, or which of our own rules of
/// options they break. It says nothing where memory runs out.
pub(crate) fn explain_words<R: Print + Eprint>(rt: &R, alloc: Global, words: &[String]) {
    let Ok(command) = command_line(alloc) else {
        return;
    };
    let parsed = command.try_get_matches_from(words);
    match &parsed {
        Ok(matches) => explain_matches(rt, matches),
        Err(error) => {
            if error.use_stderr() {
                explain_error(rt, alloc, words, error);
            }
        }
    }
    drop(parsed);
}
