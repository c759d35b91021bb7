//! The command `load`: a basis file that is tested, and the answers to all questions by it.

ghost use Rattle.std.specs.Prelude.{◌≡◌, ◌≤◌, length, option_map, IfOk, IfErr, IfSome};
ghost use Rattle.mb_io.specs.Shelf.{CountRose};
ghost use Rattle.command_floor.specs.Files.{HasCause};
ghost use Rattle.command_floor.specs.Parsing.{shown_given};
ghost use Rattle.solve_commands.specs.Load.{LoadLeads, AskedStrong, load_in, load_asked};
ghost use Rattle.solve_commands.specs.Runs.{GivesReport};
ghost use Rattle.solve_commands.specs.declared.sessions.TheConstants.{SESSIONS};

use crate::bases::load_basis;
use crate::sessions::{base_count, load_sessions, session_names};
use command_floor::{Given, Halt, load_presentation};
use legal_report::Solved;
use loaded_report::answer_by;
use mb_io::Shelf;
use std::alloc::{AllocError, Global};
use std::sync::Arc;

/// What the command `load` is asked: the names of a presentation, of a basis file and of the sessions.
#[derive(Drop)]
pub struct LoadWords<'a> {
    pub presentation: &'a str,
    pub basis: &'a str,
    pub sessions: Vec<&'a str>,
}

/// What `load` is asked by what is given behind its name, if that is of its form.
pub fn words<'a>(alloc: Global, given: &Given<'a>) -> Result<Option<LoadWords<'a>>, AllocError>
    ensures is { IfOk result (λ words. option_map load_asked words ≡ load_in (shown_given given.now)) }
    ensures few { IfOk result (λ words. IfSome words (λ w. length w.sessions.items ≤ SESSIONS)) }
{
    let Some((presentation, rest)) = given.words.split_first() else {
        return Ok(None);
    };
    let Some((basis, sessions)) = session_names(rest) else {
        return Ok(None);
    };
    let sessions = Vec::from_slice(alloc, sessions)?;
    Ok(Some(LoadWords {
        presentation: *presentation,
        basis,
        sessions,
    }))
}

/// What `load` finds over these texts: the report of the answers by the basis, which is tested and not completed.
pub fn report<S: Shelf>(alloc: Global, shelf: &mut S, words: &LoadWords) -> Result<Solved, Halt>
    requires few { length words.now.sessions.items ≤ SESSIONS }
    ensures gives { GivesReport (LoadLeads (CountRose (S.faults shelf.old) (S.faults shelf.new)) (S.under shelf.old)
        (load_asked words.now)) result }
    // Whoever wrote the file, its entries are a strong basis.
    ensures strong { IfOk result (λ _. AskedStrong (S.under shelf.old) (load_asked words.now)) }
    ensures cause { IfErr result (HasCause (CountRose (S.faults shelf.old) (S.faults shelf.new))) }
    ensures later { S.faults shelf.old ≤ S.faults shelf.new }
{
    let p = load_presentation(alloc, shelf, words.presentation)?;
    let p = Arc::new(alloc, p)?;
    let seal = load_basis(alloc, shelf, &p, words.basis)?;
    let base = base_count(alloc, &p)?;
    let sessions = load_sessions(alloc, shelf, &p, &words.sessions, base)?;
    let solved = answer_by(alloc, &p, seal, sessions)?;
    Ok(solved)
}
