//! The command `replay`: a schedule of workers and sessions, and then the completion and the answers that are left.

ghost use Rattle.std.specs.Prelude.{◌≡◌, ◌≤◌, length, option_map, All, IfOk, IfErr, IfSome};
ghost use Rattle.std.specs.Arc.{arc_value};
ghost use Rattle.mb_io.specs.Shelf.{CountRose};
ghost use Rattle.session_text.specs.Schedule.{IsEvent};
ghost use Rattle.interleave_core.specs.Opening.{AreNewSessions};
ghost use Rattle.report_text.specs.Reports.{reported};
ghost use Rattle.command_floor.specs.Files.{HasCause};
ghost use Rattle.command_floor.specs.Parsing.{shown_given};
ghost use Rattle.command_floor.specs.Settings.{AreInRange};
ghost use Rattle.legal_report.specs.Gathering.{questions_of};
ghost use Rattle.legal_report.specs.Last.{AreLastKinds};
ghost use Rattle.solve_commands.specs.Limits.{AreInTable};
ghost use Rattle.solve_commands.specs.Runs.{GivesReport};
ghost use Rattle.solve_commands.specs.Replay.{ReplayLeads, replay_in, replay_asked, IsWithinTable, IsReplay};

use crate::limits::{generators_fit, limits_given};
use crate::schedules::load_schedule;
use crate::sessions::{base_count, load_sessions, session_names};
use command_floor::{Given, Halt, load_presentation};
use interleave_core::Core;
use interleave_core::laws::runs_keep;
use legal_report::{Solved, conclude};
use mb_io::Shelf;
use pair_book::Limits;
use presentation::Presentation;
use session_core::Session;
use session_text::Event;
use std::alloc::{AllocError, Global};
use std::sync::Arc;

/// What the command `replay` is asked: limits, and the names of a presentation, of a schedule and of the sessions.
#[derive(Drop)]
pub struct ReplayWords<'a> {
    pub limits: Limits,
    pub presentation: &'a str,
    pub schedule: &'a str,
    pub sessions: Vec<&'a str>,
}

/// What `replay` is asked by what is given behind its name, if that is of its form.
pub fn words<'a>(alloc: Global, given: &Given<'a>) -> Result<Option<ReplayWords<'a>>, AllocError>
    requires { AreInRange given.now.settings }
    ensures is { IfOk result (λ words. option_map replay_asked words ≡ replay_in (shown_given given.now)) }
    ensures within { IfOk result (λ words. IfSome words IsWithinTable) }
{
    let Some((presentation, rest)) = given.words.split_first() else {
        return Ok(None);
    };
    let Some((schedule, sessions)) = session_names(rest) else {
        return Ok(None);
    };
    let sessions = Vec::from_slice(alloc, sessions)?;
    Ok(Some(ReplayWords {
        limits: limits_given(&given.settings),
        presentation: *presentation,
        schedule,
        sessions,
    }))
}

/// Plays the events on one thread, completes the log, answers each question that is left, and reports that.
fn replayed(
    alloc: Global,
    p: &Arc<Presentation>,
    sessions: Vec<Session>,
    events: &[Event],
    limits: Limits,
) -> Result<Solved, AllocError>
    requires limits { AreInTable limits }
    requires sessions { AreNewSessions (arc_value p.now) sessions.items }
    requires events { All (IsEvent (length sessions.items)) events.now }
    ensures replay { IfOk result (λ s. IsReplay (arc_value p.now) limits (questions_of sessions.items) events.now
        (reported s.report)) }
    ensures last { IfOk result (λ s. AreLastKinds (reported s.report) s.last.items) }
{
    generators_fit(p, limits);
    runs_keep();
    let mut core = Core::open(alloc, p, sessions, limits)?;
    core.play(alloc, events)?;
    let (book, sessions) = core.parts();
    let solved = conclude(alloc, p, book, sessions, limits)?;
    Ok(solved)
}

/// What `replay` finds over these texts: the report of the run that the schedule tells.
pub fn report<S: Shelf>(alloc: Global, shelf: &mut S, words: &ReplayWords) -> Result<Solved, Halt>
    requires within { IsWithinTable words.now }
    ensures gives { GivesReport (ReplayLeads (CountRose (S.faults shelf.old) (S.faults shelf.new)) (S.under shelf.old)
        (replay_asked words.now)) result }
    ensures cause { IfErr result (HasCause (CountRose (S.faults shelf.old) (S.faults shelf.new))) }
    ensures later { S.faults shelf.old ≤ S.faults shelf.new }
{
    let p = load_presentation(alloc, shelf, words.presentation)?;
    let p = Arc::new(alloc, p)?;
    let events = load_schedule(alloc, shelf, words.schedule, words.sessions.len())?;
    let base = base_count(alloc, &p)?;
    let sessions = load_sessions(alloc, shelf, &p, &words.sessions, base)?;
    let solved = replayed(alloc, &p, sessions, &events, words.limits)?;
    Ok(solved)
}
