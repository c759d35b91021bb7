//! Sessions under names, read whole.

ghost use Rattle.std.specs.Prelude.{◌≡◌, ◌≤◌, ℕ, List, length, option_map, IfOk, IfErr, IfSome};
ghost use Rattle.std.specs.Arc.{arc_value};
ghost use Rattle.mb_io.specs.Shelf.{CountRose};
ghost use Rattle.basis_entry.specs.Base.{AreBase};
ghost use Rattle.basis_entry.specs.Entries.{BasisEntry};
ghost use Rattle.command_floor.specs.Files.{HasCause};
ghost use Rattle.solve_commands.specs.SessionFiles.{SessionGives, SessionsGive, RefusesSession, AreAskable};
ghost use Rattle.solve_commands.specs.SessionFiles.{session_names};
ghost use Rattle.legal_report.specs.Solutions.{AreNewSessions};
ghost use Rattle.command_floor.specs.Parsing.{shown};
ghost use Rattle.solve_commands.specs.declared.sessions.TheConstants.{SESSIONS};

use basis_entry::Entry;
use basis_entry::laws::generator_entries_are_short;
use command_floor::{Answer, Halt, load};
use mb_io::Shelf;
use presentation::Presentation;
use session_core::Session;
use session_text::{Question, SessionFault, read_session};
use std::alloc::{AllocError, Global};
use std::sync::Arc;

/// A session's text has at most so many bytes.
pub const SESSION_BYTES: u32 = 1_048_576;

/// A command has at most so many sessions.
pub const SESSIONS: usize = 16;

/// The name of a presentation, and those of one to so many sessions.
pub fn session_names<'m, 'a>(words: &'m [&'a str]) -> Option<(&'a str, &'m [&'a str])>
    ensures is { option_map (λ p. (p.0.now, shown p.1.now)) result ≡ session_names (shown words.now) }
    ensures few { IfSome result (λ p. length p.1.now ≤ SESSIONS) }
{
    let (presentation, sessions) = words.split_first()?;
    if sessions.is_empty() || sessions.len() > SESSIONS {
        return None;
    }
    Some((*presentation, sessions))
}

/// The least front of a reply: how many entries the generators of the presentation make.
pub fn base_count(alloc: Global, p: &Arc<Presentation>) -> Result<u32, AllocError>
    ensures { IfOk result (λ n. (es : List BasisEntry) → AreBase (arc_value p.now) es → n ≡ length es) }
{
    generator_entries_are_short();
    let base = Entry::base(alloc, p)?;
    Ok(base.len() as u32)
}

/// The answer to what is wrong with a session.
pub fn refusal(alloc: Global, name: &str, fault: &SessionFault) -> Halt
    ensures refuses { RefusesSession name.now fault.now result }
    ensures cause { HasCause ⊥ result }
{
    let answer = match fault {
        SessionFault::NoMemory => return Halt::NoMemory,
        SessionFault::Text(fault) => Answer::refused(alloc, name, fault),
        SessionFault::ImageTooLong { line, relator } => {
            Answer::image_too_long(alloc, name, *line, *relator)
        }
    };
    match answer {
        Ok(answer) => Halt::Says(answer),
        Err(_) => Halt::NoMemory,
    }
}

/// The questions of the session under this name.
fn load_session<S: Shelf>(
    alloc: Global,
    shelf: &mut S,
    p: &Presentation,
    name: &str,
) -> Result<Vec<Question>, Halt>
    ensures gives { SessionGives (CountRose (S.faults shelf.old) (S.faults shelf.new)) p.now name.now
        (S.under shelf.old name.now) result }
    ensures askable { IfOk result (λ qs. AreAskable p.now qs.items) }
    ensures cause { IfErr result (HasCause (CountRose (S.faults shelf.old) (S.faults shelf.new))) }
    ensures same { (n : List ℕ) → S.under shelf.new n ≡ S.under shelf.old n }
    ensures later { S.faults shelf.old ≤ S.faults shelf.new }
{
    let text = load(alloc, shelf, name, SESSION_BYTES)?;
    match read_session(alloc, p, &text) {
        Ok(questions) => Ok(questions),
        Err(fault) => Err(refusal(alloc, name, &fault)),
    }
}

/// The sessions under these names, numbered from 1, before their first reply. No front of a reply will be below the
/// base.
pub fn load_sessions<S: Shelf>(
    alloc: Global,
    shelf: &mut S,
    p: &Presentation,
    names: &[&str],
    base: u32,
) -> Result<Vec<Session>, Halt>
    requires { length names.now ≤ SESSIONS }
    ensures gives { SessionsGive (CountRose (S.faults shelf.old) (S.faults shelf.new)) (S.under shelf.old) p.now
        (shown names.now) result }
    ensures new { IfOk result (λ ss. AreNewSessions p.now base ss.items) }
    ensures cause { IfErr result (HasCause (CountRose (S.faults shelf.old) (S.faults shelf.new))) }
    ensures same { (n : List ℕ) → S.under shelf.new n ≡ S.under shelf.old n }
    ensures later { S.faults shelf.old ≤ S.faults shelf.new }
{
    let mut sessions = Vec::new(alloc);
    for at in 0..names.len() {
        let questions = load_session(alloc, shelf, p, names[at])?;
        sessions.push(Session::open(alloc, at as u32 + 1, questions, base)?)?;
    }
    Ok(sessions)
}
