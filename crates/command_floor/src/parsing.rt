//! The words after a command, as clap reads them.

ghost use Rattle.std.specs.Prelude.{◌≡◌, true, map, string_bytes, option_map, IfOk, IfSome};
ghost use Rattle.clap.specs.Words.{app_of, found_of, rows_of};
ghost use Rattle.clap.specs.Walk.{first_of};
ghost use Rattle.clap.specs.Faults.{is_simple_and_free};
ghost use Rattle.command_floor.specs.Parsing.{declared, parsed, names_in, shown, shown_given, given_by};
ghost use Rattle.command_floor.specs.Settings.{option_name, setting_in, settings_in, IsInRange, AreInRange};

use crate::numbers::number_between;
use crate::settings::{Setting, Settings};
use clap::error::ErrorKind;
use clap::{Arg, ArgAction, ArgMatches};
use std::alloc::{AllocError, Global};

/// What is given behind a command's name: the numbers of its options, and the other words in order.
#[derive(Drop)]
pub struct Given<'a> {
    pub settings: Settings,
    pub words: Vec<&'a str>,
}

/// The simple command of this name, with these options.
fn command<'a>(
    alloc: Global,
    name: &'a str,
    options: &[Setting],
) -> Result<clap::Command<'a>, AllocError>
    ensures { IfOk result (λ c. app_of c ≡ declared name.entry.now (map option_name options.now)) }
{
    let mut command = clap::Command::new(alloc, name)
        .disable_help_flag(true)
        .disable_version_flag(true)
        .no_binary_name(true);
    for option in options {
        let long: &'a str = option.name();
        let arg = Arg::new(alloc, long).long(long).action(ArgAction::Set);
        command = command.arg(arg)?;
    }
    command.arg(Arg::new(alloc, "names").action(ArgAction::Append))
}

/// What clap finds in the words after a command of this name with these options, if they are of its form.
fn parse<'a>(
    alloc: Global,
    name: &'a str,
    options: &[Setting],
    words: &'a [String],
) -> Result<Option<ArgMatches<'a>>, AllocError>
    requires { is_simple_and_free (declared name.now (map option_name options.now)) ≡ true }
    ensures { IfOk result (λ found. option_map (λ m. rows_of (found_of m)) found
        ≡ parsed (declared name.entry.now (map option_name options.now)) (map string_bytes words.entry.now)) }
{
    match command(alloc, name, options)?.try_get_matches_from(words) {
        Ok(found) => Ok(Some(found)),
        Err(error) => {
            if error.kind() == ErrorKind::OutOfMemory {
                return Err(AllocError);
            }
            Ok(None)
        }
    }
}

/// The words that belong to no option, in order.
fn names<'a>(alloc: Global, found: &ArgMatches<'a>) -> Result<Vec<&'a str>, AllocError>
    ensures { IfOk result (λ v. shown v.items ≡ names_in (rows_of (found_of found.now))) }
{
    match found.get_strs("names") {
        None => Ok(Vec::new(alloc)),
        Some(names) => Vec::from_slice(alloc, names),
    }
}

/// The value of an option, if it is given.
fn value<'a>(found: &ArgMatches<'a>, option: &str) -> Option<&'a str>
    ensures { option_map (λ v. v.now) result ≡ first_of option.now (rows_of (found_of found.now)) }
{
    found.get_str(option)
}

/// The number of an option, none where it isn't given; or no value, where what is given is no number in its range.
fn setting(found: &ArgMatches, option: Setting) -> Option<Option<u32>>
    ensures is { result ≡ setting_in option (rows_of (found_of found.now)) }
    ensures within { IfSome result (IsInRange option) }
{
    match value(found, option.name()) {
        None => Some(None),
        Some(text) => Some(Some(number_between(text, option.least(), option.most())?)),
    }
}

/// The numbers of all options, where what is given are numbers in their ranges.
fn settings(found: &ArgMatches) -> Option<Settings>
    ensures is { result ≡ settings_in (rows_of (found_of found.now)) }
    ensures within { IfSome result AreInRange }
{
    let entries = setting(found, Setting::Entries)?;
    let budget = setting(found, Setting::Budget)?;
    let order = setting(found, Setting::Order)?;
    let workers = setting(found, Setting::Workers)?;
    let report = setting(found, Setting::Report)?;
    Some(Settings {
        entries,
        budget,
        order,
        workers,
        report,
    })
}

/// What is given behind a command of this name with these options, if the words are of its form, and the numbers of the
/// options in their ranges.
pub fn read_given<'a>(
    alloc: Global,
    name: &'static str,
    options: &[Setting],
    words: &'a [String],
) -> Result<Option<Given<'a>>, AllocError>
    requires { is_simple_and_free (declared name.now (map option_name options.now)) ≡ true }
    ensures is { IfOk result (λ given. option_map shown_given given
        ≡ given_by name.now options.now (map string_bytes words.now)) }
    ensures within { IfOk result (λ given. IfSome given (λ g. AreInRange g.settings)) }
{
    let Some(found) = parse(alloc, name, options, words)? else {
        return Ok(None);
    };
    let Some(settings) = settings(&found) else {
        return Ok(None);
    };
    let words = names(alloc, &found)?;
    Ok(Some(Given { settings, words }))
}
