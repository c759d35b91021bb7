//! The command `solo`: a completion, and then the answers to all questions.

ghost use Rattle.std.specs.Prelude.{◌≡◌, ◌≤◌, option_map, IfOk, IfErr, IfSome};
ghost use Rattle.mb_io.specs.Shelf.{CountRose};
ghost use Rattle.command_floor.specs.Files.{HasCause};
ghost use Rattle.command_floor.specs.Parsing.{shown_given};
ghost use Rattle.command_floor.specs.Settings.{AreInRange};
ghost use Rattle.solve_commands.specs.Runs.{GivesReport};
ghost use Rattle.solve_commands.specs.Solo.{SoloLeads, solo_in, solo_asked, IsWithinTable};

use crate::begun::{Begun, begin};
use crate::limits::limits_given;
use crate::sessions::session_names;
use command_floor::{Given, Halt};
use legal_report::{Solved, solve};
use mb_io::Shelf;
use pair_book::Limits;
use std::alloc::{AllocError, Global};

/// What the command `solo` is asked: limits, and the names of a presentation and of the sessions.
#[derive(Drop)]
pub struct SoloWords<'a> {
    pub limits: Limits,
    pub presentation: &'a str,
    pub sessions: Vec<&'a str>,
}

/// What `solo` is asked by what is given behind its name, if that is of its form.
pub fn words<'a>(alloc: Global, given: &Given<'a>) -> Result<Option<SoloWords<'a>>, AllocError>
    requires { AreInRange given.now.settings }
    ensures is { IfOk result (λ words. option_map solo_asked words ≡ solo_in (shown_given given.now)) }
    ensures within { IfOk result (λ words. IfSome words IsWithinTable) }
{
    let Some((presentation, sessions)) = session_names(&given.words) else {
        return Ok(None);
    };
    let sessions = Vec::from_slice(alloc, sessions)?;
    Ok(Some(SoloWords {
        limits: limits_given(&given.settings),
        presentation,
        sessions,
    }))
}

/// What `solo` finds over these texts: the report of a completion and of the answers to all questions.
pub fn report<S: Shelf>(alloc: Global, shelf: &mut S, words: &SoloWords) -> Result<Solved, Halt>
    requires within { IsWithinTable words.now }
    ensures gives { GivesReport (SoloLeads (CountRose (S.faults shelf.old) (S.faults shelf.new)) (S.under shelf.old)
        (solo_asked words.now)) result }
    ensures cause { IfErr result (HasCause (CountRose (S.faults shelf.old) (S.faults shelf.new))) }
    ensures later { S.faults shelf.old ≤ S.faults shelf.new }
{
    let limits = words.limits;
    let begun = begin(alloc, shelf, words.presentation, &words.sessions, limits)?;
    let Begun { p, book, sessions } = begun;
    let solved = solve(alloc, &p, book, sessions, limits)?;
    Ok(solved)
}
