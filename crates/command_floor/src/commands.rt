//! The table of commands: a row for each, with its name and its options.

ghost use Rattle.std.specs.Prelude.{◌≡◌, [], ◌∷◌, true, map, string_bytes, option_map, IfOk, IfSome, codes};
ghost use Rattle.clap.specs.Faults.{is_simple_and_free};
ghost use Rattle.command_floor.specs.Commands.{asks, asked_of, asked, shown_asked};
ghost use Rattle.command_floor.specs.Parsing.{declared};
ghost use Rattle.command_floor.specs.Settings.{option_name, AreInRange};

use crate::parsing::{Given, read_given};
use crate::settings::Setting;
use std::alloc::{AllocError, Global};

/// A command.
#[derive(Clone, Copy)]
pub enum Command {
    Steps,
    Fox,
    Check,
    Solo,
    Replay,
    Run,
    Gen,
    Trim,
    Flat,
    Sum,
    Extend,
    Save,
    Load,
}

/// A command with what is given behind its name.
#[derive(Drop)]
pub struct Asked<'a> {
    pub command: Command,
    pub given: Given<'a>,
}

/// The command that has this name and these options, if the words after the name are of its form.
fn behind<'a>(
    alloc: Global,
    command: Command,
    name: &'static str,
    options: &[Setting],
    words: &'a [String],
) -> Result<Option<Asked<'a>>, AllocError>
    requires { is_simple_and_free (declared name.now (map option_name options.now)) ≡ true }
    ensures is { IfOk result (λ a. option_map shown_asked a
        ≡ asks command name.now options.now (map string_bytes words.now)) }
    ensures within { IfOk result (λ a. IfSome a (λ x. AreInRange x.given.settings)) }
{
    match read_given(alloc, name, options, words)? {
        None => Ok(None),
        Some(given) => Ok(Some(Asked { command, given })),
    }
}

/// The command of this name, if the words after it are of its form.
fn command_of<'a>(
    alloc: Global,
    name: &str,
    words: &'a [String],
) -> Result<Option<Asked<'a>>, AllocError>
    ensures is { IfOk result (λ a. option_map shown_asked a ≡ asked_of name.now (map string_bytes words.now)) }
    ensures within { IfOk result (λ a. IfSome a (λ x. AreInRange x.given.settings)) }
{
    let run = [Setting::Entries, Setting::Budget, Setting::Order];
    let threaded = [
        Setting::Workers,
        Setting::Entries,
        Setting::Budget,
        Setting::Order,
    ];
    let whole = [Setting::Entries, Setting::Order];
    if name == "steps" {
        behind(alloc, Command::Steps, "steps", &[], words)
    } else if name == "fox" {
        behind(alloc, Command::Fox, "fox", &[], words)
    } else if name == "check" {
        behind(alloc, Command::Check, "check", &[], words)
    } else if name == "solo" {
        behind(alloc, Command::Solo, "solo", &run, words)
    } else if name == "replay" {
        behind(alloc, Command::Replay, "replay", &run, words)
    } else if name == "run" {
        behind(alloc, Command::Run, "run", &threaded, words)
    } else if name == "gen" {
        behind(alloc, Command::Gen, "gen", &[], words)
    } else if name == "trim" {
        behind(alloc, Command::Trim, "trim", &[], words)
    } else if name == "flat" {
        behind(alloc, Command::Flat, "flat", &[], words)
    } else if name == "sum" {
        behind(alloc, Command::Sum, "sum", &[], words)
    } else if name == "extend" {
        behind(alloc, Command::Extend, "extend", &whole, words)
    } else if name == "save" {
        behind(alloc, Command::Save, "save", &whole, words)
    } else if name == "load" {
        behind(alloc, Command::Load, "load", &[], words)
    } else {
        Ok(None)
    }
}

/// What the words of the command line ask for: the command that the first word names, with what is given behind it, if
/// clap accepts that, and the numbers of the options are in their ranges.
pub fn read_command(alloc: Global, words: &[String]) -> Result<Option<Asked<'_>>, AllocError>
    ensures is { IfOk result (λ a. option_map shown_asked a ≡ asked (map string_bytes words.now)) }
    ensures within { IfOk result (λ a. IfSome a (λ x. AreInRange x.given.settings)) }
{
    match words.split_first() {
        None => Ok(None),
        Some((name, rest)) => command_of(alloc, name.as_str(), rest),
    }
}
