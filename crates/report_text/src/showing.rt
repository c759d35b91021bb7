//! The proofs of what is answered yes.

ghost use Rattle.std.specs.List.{AllByRecursion};
ghost use Rattle.std.specs.Prelude.{◌≡◌, ◌≤◌, ◌++◌, ◌∷◌, [], List, length, take, IfOk};
ghost use Rattle.module_vec.specs.declared.steps.Step.{Step};
ghost use Rattle.module_vec.specs.Reducers.{AreEntries};
ghost use Rattle.step_text.specs.Over.{StepsAreOver};
ghost use Rattle.report_lines.specs.declared.lines.Line.TheVariants as lines;
ghost use Rattle.report_lines.specs.Texts.{line_text, lines_text};
ghost use Rattle.session_text.specs.Questions.{subjects};
ghost use Rattle.hom_check.specs.Subjects.{subject_at};
ghost use Rattle.hom_check.specs.Shown.{IsShown};
ghost use Rattle.session_core.specs.Proofs.{AreStepsOf};
ghost use Rattle.session_core.specs.Questions.{CanBeAsked};
ghost use Rattle.basis_entry.specs.Entries.{vectors_of};
ghost use Rattle.basis_entry.specs.Items.{vectors_below};
ghost use Rattle.report_text.specs.Answers.{AreProofsOf, to_show};
ghost use Rattle.report_text.specs.Histories.{proof_lines};
ghost use Rattle.report_text.specs.Writing.{Puts, Counts};

use crate::WriteFault;
use crate::log::Log;
use crate::pieces::put_with_end;
use hom_check::subject_count;
use mb_io::Sink;
use module_vec::VecList;
use outcomes::Verdict;
use reduce_cofactor::ReduceFault;
use report_lines::put_proof;
use session_core::proof;
use session_text::Question;
use std::alloc::{AllocError, Global};
use step_lists::Steps;

/// Writes the proofs of a verdict by the entries below the front: one for each subject of a yes, and none for any
/// other.
pub fn put_proofs<K: Sink>(
    alloc: Global,
    log: &Log<'_>,
    front: u32,
    q: &Question,
    verdict: &Verdict,
    out: &mut K,
) -> Result<(), WriteFault>
    requires asked { CanBeAsked log.now.pres q.now }
    requires shown { AllByRecursion (IsShown (vectors_below log.now.entries front)) (to_show q.now verdict.now) }
    ensures text { (proofs : List (List Step))
        → AreProofsOf (vectors_below log.now.entries front) (to_show q.now verdict.now) proofs →
        Puts (K.taken out.old) (lines_text log.now.pres (proof_lines 1 proofs)) result (K.taken out.new) }
    ensures counts { Counts (K.faults out.old) result (K.faults out.new) }
{
    match verdict {
        Verdict::Trivial | Verdict::Extends => put_all(alloc, log, front, q, out),
        _ => Ok(()),
    }
}

/// Writes the proof of each subject.
fn put_all<K: Sink>(
    alloc: Global,
    log: &Log<'_>,
    front: u32,
    q: &Question,
    out: &mut K,
) -> Result<(), WriteFault>
    requires asked { CanBeAsked log.now.pres q.now }
    requires shown { AllByRecursion (IsShown (vectors_below log.now.entries front)) (subjects q.now) }
    ensures text { (proofs : List (List Step))
        → AreProofsOf (vectors_below log.now.entries front) (subjects q.now) proofs →
        Puts (K.taken out.old) (lines_text log.now.pres (proof_lines 1 proofs)) result (K.taken out.new) }
    ensures counts { Counts (K.faults out.old) result (K.faults out.new) }
{
    for place in 0..subject_count(q) {
        put_one(alloc, log, front, q, place + 1, out)?;
    }
    Ok(())
}

/// Writes the proof of one subject.
fn put_one<K: Sink>(
    alloc: Global,
    log: &Log<'_>,
    front: u32,
    q: &Question,
    number: u32,
    out: &mut K,
) -> Result<(), WriteFault>
    requires asked { CanBeAsked log.now.pres q.now }
    requires first { 1 ≤ number }
    requires within { number ≤ length (subjects q.now) }
    requires shown { IsShown (vectors_below log.now.entries front) (subject_at q.now number) }
    ensures text { (steps : List Step) → AreStepsOf (vectors_below log.now.entries front)
        (subject_at q.now number) steps →
        Puts (K.taken out.old) (line_text log.now.pres (lines.Proof number steps) ++ 10 ∷ []) result
        (K.taken out.new) }
    ensures counts { Counts (K.faults out.old) result (K.faults out.new) }
{
    let steps = steps_of(alloc, log, front, q, number)?;
    let mut line = Vec::new(alloc);
    put_proof(&mut line, log.pres(), number, &steps)?;
    put_with_end(line, out)
}

/// The steps that show a subject.
fn steps_of(
    alloc: Global,
    log: &Log<'_>,
    front: u32,
    q: &Question,
    number: u32,
) -> Result<Steps, AllocError>
    requires asked { CanBeAsked log.now.pres q.now }
    requires first { 1 ≤ number }
    requires within { number ≤ length (subjects q.now) }
    requires shown { IsShown (vectors_below log.now.entries front) (subject_at q.now number) }
    ensures is { IfOk result (AreStepsOf (vectors_below log.now.entries front) (subject_at q.now number)) }
    ensures over { IfOk result (StepsAreOver (length log.now.pres.names)) }
{
    let count = entries_below(log, front);
    match proof(alloc, log.pres(), log, count, q, number) {
        Ok(steps) => Ok(steps),
        Err(ReduceFault::Stop(_)) => unreachable!(),
        Err(ReduceFault::NoMemory) => Err(AllocError),
    }
}

/// How many entries stand below the front.
fn entries_below(log: &Log<'_>, front: u32) -> u32
    ensures within { result ≤ length (vectors_of log.now.entries) }
    ensures is { take result (vectors_of log.now.entries) ≡ vectors_below log.now.entries front }
    ensures entries { AreEntries (vectors_below log.now.entries front) }
{
    front.min(log.count())
}
