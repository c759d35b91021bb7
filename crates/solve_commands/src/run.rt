//! The command `run`: several workers complete the log while the sessions ask.

ghost use Rattle.std.specs.Prelude.{◌≡◌, ◌≤◌, option_map, IfOk, IfErr, IfSome};
ghost use Rattle.mb_io.specs.Shelf.{CountRose};
ghost use Rattle.command_floor.specs.Files.{HasCause};
ghost use Rattle.command_floor.specs.Parsing.{shown_given};
ghost use Rattle.command_floor.specs.Settings.{AreInRange};
ghost use Rattle.solve_commands.specs.Runs.{GivesReport};
ghost use Rattle.solve_commands.specs.Run.{RunLeads, run_in, run_asked, IsWithinTable};

use crate::begun::{Begun, begin};
use crate::limits::{generators_fit, limits_given};
use crate::sessions::session_names;
use command_floor::{Given, Halt};
use completion_workers::Gate;
use legal_report::Solved;
use mb_io::Shelf;
use pair_book::Limits;
use std::alloc::{AllocError, Global};
use std::sync::Wait;
use std::thread::Threads;

/// So many workers complete the log, where the command line doesn't say.
pub const WORKERS: u32 = 4;

/// What the command `run` is asked: the number of workers, limits, and the names of a presentation and of the sessions.
#[derive(Drop)]
pub struct RunWords<'a> {
    pub workers: u32,
    pub limits: Limits,
    pub presentation: &'a str,
    pub sessions: Vec<&'a str>,
}

/// What `run` is asked by what is given behind its name, if that is of its form.
pub fn words<'a>(alloc: Global, given: &Given<'a>) -> Result<Option<RunWords<'a>>, AllocError>
    requires { AreInRange given.now.settings }
    ensures is { IfOk result (λ words. option_map run_asked words ≡ run_in (shown_given given.now)) }
    ensures within { IfOk result (λ words. IfSome words IsWithinTable) }
{
    let Some((presentation, sessions)) = session_names(&given.words) else {
        return Ok(None);
    };
    let sessions = Vec::from_slice(alloc, sessions)?;
    Ok(Some(RunWords {
        workers: given.settings.workers.unwrap_or(WORKERS),
        limits: limits_given(&given.settings),
        presentation,
        sessions,
    }))
}

/// What `run` finds over these texts: the report of a completion by so many workers, while the sessions ask. It returns
/// if each call returns that waits for another thread.
pub fn report<S: Shelf, G: Gate + Sync, R: Threads + Wait + Sync>(
    rt: &R,
    alloc: Global,
    shelf: &mut S,
    words: &RunWords,
    gate: &G,
) -> Result<Solved, Halt>
    requires within { IsWithinTable words.now }
    ensures gives { GivesReport (RunLeads (CountRose (S.faults shelf.old) (S.faults shelf.new)) (S.under shelf.old)
        (run_asked words.now)) result }
    ensures cause { IfErr result (HasCause (CountRose (S.faults shelf.old) (S.faults shelf.new))) }
    ensures later { S.faults shelf.old ≤ S.faults shelf.new }
{
    let limits = words.limits;
    let begun = begin(alloc, shelf, words.presentation, &words.sessions, limits)?;
    let Begun { p, book, sessions } = begun;
    generators_fit(&p, limits);
    let workers = words.workers;
    let solved = threaded_run::run(rt, alloc, &p, book, sessions, workers, limits, gate)?;
    Ok(solved)
}
