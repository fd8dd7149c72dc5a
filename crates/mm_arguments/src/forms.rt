ghost use Rattle.std.specs.Prelude.{◌≡◌, ◌≢◌, [], false, None, IfOk, MatchOption, map};
ghost use Rattle.std.specs.Prelude.{string_bytes};
ghost use Rattle.std.specs.Bool.{OnFalse, OnTrue};
ghost use Rattle.std.specs.List.{list_any};
ghost use Rattle.clap.specs.Words.{app_of, fault_of, kind_of, subcommand_of, subcommand_rows_of};
ghost use Rattle.clap.specs.declared.error.ErrorKind.TheVariants.{OutOfMemory};
ghost use Rattle.clap.specs.declared.builder.Command.TheViews.{out-Command};
ghost use Rattle.mm_arguments.specs.Forms.{AreForms, Says, SaysNone, is_dashed};
ghost use Rattle.mm_arguments.specs.Shapes.{form_app, GivesWords, with_form, words_app};

use clap::error::{Error, ErrorKind};
use clap::{Arg, ArgAction, ArgMatches, Command};
use mm_types::NoMemory;
use std::alloc::{AllocError, Global};

/// A form of a program's words: its name, and from `least` to `most` values after it.
#[derive(Clone, Copy)]
pub struct Form<'a> {
    pub name: &'a str,
    pub least: usize,
    pub most: usize,
}

/// What the words say: which form they are, by its name, and its values.
#[derive(Drop)]
pub struct Said<'a> {
    pub name: &'a str,
    pub values: Vec<&'a str>,
}

/// Whether the word begins with `-`.
fn is_dashed(word: &[u8]) -> bool
    ensures { result ≡ is_dashed word.now }
{
    match word {
        [first, ..] => *first == b'-',
        [] => false,
    }
}

/// Whether a word begins with `-`.
fn any_dashed(words: &[String]) -> bool
    ensures { result ≡ list_any is_dashed (map string_bytes words.now) }
{
    for word in words {
        if is_dashed(word.as_bytes()) {
            return true;
        }
    }
    false
}

/// The subcommand that reads the values of a form.
fn form_command<'a>(alloc: Global, form: Form<'a>) -> Result<Command<'a>, AllocError>
    ensures { IfOk result (λ c. (app_of c ≡ form_app form.entry)
        × ((out-Command c).has_globals ≡ false)) }
{
    let command = Command::new(alloc, form.name);
    if form.most == 0 {
        return Ok(command);
    }
    let values = Arg::new(alloc, "values")
        .required(form.least > 0)
        .action(ArgAction::Set)
        .num_args(form.least..=form.most);
    command.arg(values)
}

/// The command that reads the words, as long as it has no form.
fn bare_command<'a>(alloc: Global) -> Command<'a>
    ensures { app_of result ≡ words_app [] }
{
    Command::new(alloc, "words")
        .no_binary_name(true)
        .disable_help_flag(true)
        .disable_help_subcommand(true)
        .subcommand_required(true)
}

/// The command with one form more.
fn with_form<'a>(
    alloc: Global,
    command: Command<'a>,
    form: Form<'a>,
) -> Result<Command<'a>, AllocError>
    ensures { IfOk result (λ c. app_of c ≡ with_form (app_of command.entry) form.entry) }
{
    let named = form_command(alloc, form)?;
    command.subcommand(named)
}

/// The command that reads the words.
fn command<'a>(alloc: Global, forms: &[Form<'a>]) -> Result<Command<'a>, AllocError>
    ensures { IfOk result (λ c. app_of c ≡ words_app forms.now) }
{
    let mut command = bare_command(alloc);
    for form in forms {
        command = with_form(alloc, command, *form)?;
    }
    Ok(command)
}

/// Whether clap gave up for memory that was refused.
fn is_for_memory(error: Error) -> bool
    ensures yes { OnTrue result (kind_of error ≡ OutOfMemory) }
    ensures no { OnFalse result (kind_of error ≡ OutOfMemory → ⊥) }
{
    matches!(error.kind(), ErrorKind::OutOfMemory)
}

/// What clap makes of the words, or `None` where it does not take them.
fn parsed<'a>(
    alloc: Global,
    forms: &[Form<'a>],
    words: &'a [String],
) -> Result<Option<ArgMatches<'a>>, NoMemory>
    requires some { forms.now ≢ [] }
    ensures { IfOk result (λ r. MatchOption r
        (fault_of (words_app forms.now) (map string_bytes words.entry.now) ≡ [] → ⊥)
        (λ m. (fault_of (words_app forms.now) (map string_bytes words.entry.now) ≡ [])
        × (subcommand_rows_of m
        ≡ subcommand_of (words_app forms.now) (map string_bytes words.entry.now)))) }
{
    let command = command(alloc, forms)?;
    match command.try_get_matches_from(words) {
        Ok(matches) => Ok(Some(matches)),
        Err(error) => {
            if is_for_memory(error) {
                Err(NoMemory)
            } else {
                Ok(None)
            }
        }
    }
}

/// The form that the matches have, with its values.
fn said_of<'a>(alloc: Global, matches: &ArgMatches<'a>) -> Result<Option<Said<'a>>, NoMemory>
    ensures { IfOk result (λ r. MatchOption r (subcommand_rows_of matches.now ≡ None)
        (GivesWords (subcommand_rows_of matches.now))) }
{
    let (name, found) = match matches.subcommand() {
        Some(entered) => entered,
        None => return Ok(None),
    };
    match found.get_strs("values") {
        Some(values) => Ok(Some(Said {
            name,
            values: Vec::from_slice(alloc, values)?,
        })),
        None => Ok(Some(Said {
            name,
            values: Vec::new(alloc),
        })),
    }
}

/// Which of the forms the words are, with their values. `None` where they are none of them, or one
/// begins with `-`. The names of the forms differ. An `Err` is memory that was refused.
pub fn read_words<'a>(
    alloc: Global,
    forms: &[Form<'a>],
    words: &'a [String],
) -> Result<Option<Said<'a>>, NoMemory>
    requires { AreForms forms.now }
    ensures { IfOk result (λ r. MatchOption r
        (SaysNone forms.now (map string_bytes words.entry.now))
        (Says forms.now (map string_bytes words.entry.now))) }
{
    if forms.is_empty() {
        return Ok(None);
    }
    if any_dashed(words) {
        return Ok(None);
    }
    match parsed(alloc, forms, words)? {
        Some(matches) => said_of(alloc, &matches),
        None => Ok(None),
    }
}
