//! The question that a line of a session spells.

ghost use Rattle.std.specs.Prelude.{◌≡◌, ◌≤◌, ◌<◌, ◌+◌, [], length, drop, IfOk, OnOk};
ghost use Rattle.std.specs.List.{AllByRecursion};
ghost use Rattle.word_text.specs.Machine.{finding};
ghost use Rattle.presentation.specs.Presented.{IsWritten};
ghost use Rattle.derivation.specs.Reading.{GoesOn, ending_at};
ghost use Rattle.session_text.specs.Questions.{IsWrittenQuestion};
ghost use Rattle.session_text.specs.Reading.{form_at, mark_at, trivial_at, equal_at, normal_at, image_behind};
ghost use Rattle.session_text.specs.Reading.{next_image, images_at, hom_at, asked_at};

use crate::question::Question;
use crate::words::Words;
use free_words::Word;
use presentation::{Presentation, WordReader};
use std::alloc::Global;
use word_text::ReadFault;

/// What a question asks, as its keyword says.
#[derive(Clone, Copy, Debug, PartialEq, Eq)]
pub enum Form {
    Trivial,
    Equal,
    Normal,
    Hom,
}

/// The keyword at the head of a line.
#[tactic(auto, unfolding(crate::specs::Reading::form_at))]
pub fn keyword(reader: &mut WordReader) -> Result<Form, ReadFault>
    requires { reader.old.at ≤ length reader.old.text.now }
    ensures exact { GoesOn (λ x. x) reader.old.text.now reader.old.line reader.new.at
        (form_at (drop reader.old.at reader.old.text.now)) result }
    ensures inside { reader.new.at ≤ length reader.old.text.now }
    ensures text { reader.new.text ≡ reader.old.text }
    ensures line { reader.new.line ≡ reader.old.line }
{
    if reader.at_keyword("trivial") {
        Ok(Form::Trivial)
    } else if reader.at_keyword("equal") {
        Ok(Form::Equal)
    } else if reader.at_keyword("normal") {
        Ok(Form::Normal)
    } else if reader.at_keyword("hom") {
        Ok(Form::Hom)
    } else {
        Err(reader.unexpected())
    }
}

// The mark that is due.
#[tactic(auto, unfolding(crate::specs::Reading::mark_at))]
fn mark(reader: &mut WordReader, mark: &str) -> Result<(), ReadFault>
    requires { reader.old.at ≤ length reader.old.text.now }
    ensures exact { GoesOn (λ _. tt) reader.old.text.now reader.old.line reader.new.at
        (mark_at mark.now (drop reader.old.at reader.old.text.now)) result }
    ensures inside { reader.new.at ≤ length reader.old.text.now }
    ensures text { reader.new.text ≡ reader.old.text }
    ensures line { reader.new.line ≡ reader.old.line }
{
    let unexpected = reader.unexpected();
    if reader.at_bytes(mark) {
        Ok(())
    } else {
        Err(unexpected)
    }
}

// One word.
#[tactic(auto, unfolding(crate::specs::Reading::trivial_at))]
fn trivial(alloc: Global, reader: &mut WordReader, p: &Presentation) -> Result<Question, ReadFault>
    requires { reader.old.at ≤ length reader.old.text.now }
    ensures exact { GoesOn (λ q. q) reader.old.text.now reader.old.line reader.new.at
        (trivial_at (finding p.now.names) (drop reader.old.at reader.old.text.now)) result }
    ensures written { IfOk result (λ q. IsWrittenQuestion p.now q) }
    ensures inside { reader.new.at ≤ length reader.old.text.now }
    ensures text { reader.new.text ≡ reader.old.text }
    ensures line { reader.new.line ≡ reader.old.line }
{
    Ok(Question::Trivial(reader.at_word(alloc, p)?))
}

// Two words with `=` between them.
#[tactic(auto, unfolding(crate::specs::Reading::equal_at))]
fn equal(alloc: Global, reader: &mut WordReader, p: &Presentation) -> Result<Question, ReadFault>
    requires { reader.old.at ≤ length reader.old.text.now }
    ensures exact { GoesOn (λ q. q) reader.old.text.now reader.old.line reader.new.at
        (equal_at (finding p.now.names) (drop reader.old.at reader.old.text.now)) result }
    ensures written { IfOk result (λ q. IsWrittenQuestion p.now q) }
    ensures inside { reader.new.at ≤ length reader.old.text.now }
    ensures text { reader.new.text ≡ reader.old.text }
    ensures line { reader.new.line ≡ reader.old.line }
{
    let left = reader.at_word(alloc, p)?;
    mark(reader, "=")?;
    let right = reader.at_word(alloc, p)?;
    Ok(Question::Equal(left, right))
}

// One word.
#[tactic(auto, unfolding(crate::specs::Reading::normal_at))]
fn normal(alloc: Global, reader: &mut WordReader, p: &Presentation) -> Result<Question, ReadFault>
    requires { reader.old.at ≤ length reader.old.text.now }
    ensures exact { GoesOn (λ q. q) reader.old.text.now reader.old.line reader.new.at
        (normal_at (finding p.now.names) (drop reader.old.at reader.old.text.now)) result }
    ensures written { IfOk result (λ q. IsWrittenQuestion p.now q) }
    ensures inside { reader.new.at ≤ length reader.old.text.now }
    ensures text { reader.new.text ≡ reader.old.text }
    ensures line { reader.new.line ≡ reader.old.line }
{
    Ok(Question::Normal(reader.at_word(alloc, p)?))
}

// A word, put behind others.
#[tactic(auto, unfolding(crate::specs::Reading::image_behind))]
fn push_image(
    alloc: Global,
    reader: &mut WordReader,
    p: &Presentation,
    images: &mut Vec<Word>,
) -> Result<(), ReadFault>
    requires { reader.old.at ≤ length reader.old.text.now }
    ensures exact { GoesOn (λ _. images.new.items) reader.old.text.now reader.old.line reader.new.at
        (image_behind (finding p.now.names) images.old.items (drop reader.old.at reader.old.text.now)) result }
    ensures written { OnOk result (AllByRecursion (IsWritten (length p.now.names)) images.old.items
        → AllByRecursion (IsWritten (length p.now.names)) images.new.items) }
    ensures one_more { OnOk result (length images.new.items ≡ length images.old.items + 1) }
    ensures inside { reader.new.at ≤ length reader.old.text.now }
    ensures text { reader.new.text ≡ reader.old.text }
    ensures line { reader.new.line ≡ reader.old.line }
{
    let image = reader.at_word(alloc, p)?;
    match images.push(image) {
        Ok(()) => Ok(()),
        Err(_) => Err(ReadFault::NoMemory),
    }
}

// A comma and a word, put behind others.
#[tactic(auto, unfolding(crate::specs::Reading::next_image))]
fn push_next(
    alloc: Global,
    reader: &mut WordReader,
    p: &Presentation,
    images: &mut Vec<Word>,
) -> Result<(), ReadFault>
    requires { reader.old.at ≤ length reader.old.text.now }
    ensures exact { GoesOn (λ _. images.new.items) reader.old.text.now reader.old.line reader.new.at
        (next_image (finding p.now.names) images.old.items (drop reader.old.at reader.old.text.now)) result }
    ensures written { OnOk result (AllByRecursion (IsWritten (length p.now.names)) images.old.items
        → AllByRecursion (IsWritten (length p.now.names)) images.new.items) }
    ensures one_more { OnOk result (length images.new.items ≡ length images.old.items + 1) }
    ensures inside { reader.new.at ≤ length reader.old.text.now }
    ensures text { reader.new.text ≡ reader.old.text }
    ensures line { reader.new.line ≡ reader.old.line }
{
    mark(reader, ",")?;
    push_image(alloc, reader, p, images)
}

// So many words with commas between them.
fn images(
    alloc: Global,
    reader: &mut WordReader,
    p: &Presentation,
    count: usize,
) -> Result<Vec<Word>, ReadFault>
    requires inside { reader.old.at ≤ length reader.old.text.now }
    requires some { 0 < count }
    ensures exact { GoesOn (λ v. v.items) reader.old.text.now reader.old.line reader.new.at
        (images_at count (finding p.now.names) (drop reader.old.at reader.old.text.now)) result }
    ensures written { IfOk result (λ v. AllByRecursion (IsWritten (length p.now.names)) v.items) }
    ensures so_many { IfOk result (λ v. length v.items ≡ count) }
    ensures inside { reader.new.at ≤ length reader.old.text.now }
    ensures text { reader.new.text ≡ reader.old.text }
    ensures line { reader.new.line ≡ reader.old.line }
{
    let mut images = Vec::new(alloc);
    push_image(alloc, reader, p, &mut images)?;
    while images.len() < count {
        push_next(alloc, reader, p, &mut images)?;
    }
    Ok(images)
}

// A presentation, `->` and a word for each of its generators.
#[tactic(auto, unfolding(crate::specs::Reading::hom_at))]
fn hom(alloc: Global, reader: &mut WordReader, p: &Presentation) -> Result<Question, ReadFault>
    requires { reader.old.at ≤ length reader.old.text.now }
    ensures exact { GoesOn (λ q. q) reader.old.text.now reader.old.line reader.new.at
        (hom_at (finding p.now.names) (drop reader.old.at reader.old.text.now)) result }
    ensures written { IfOk result (λ q. IsWrittenQuestion p.now q) }
    ensures inside { reader.new.at ≤ length reader.old.text.now }
    ensures text { reader.new.text ≡ reader.old.text }
    ensures line { reader.new.line ≡ reader.old.line }
{
    let source = reader.at_presentation(alloc)?;
    mark(reader, "->")?;
    source.known();
    let images = images(alloc, reader, p, source.count() as usize)?;
    Ok(Question::Hom {
        source,
        images: Words::of(images),
    })
}

/// What stands behind the keyword of this form.
pub fn asked(
    alloc: Global,
    reader: &mut WordReader,
    p: &Presentation,
    form: Form,
) -> Result<Question, ReadFault>
    requires { reader.old.at ≤ length reader.old.text.now }
    ensures exact { GoesOn (λ q. q) reader.old.text.now reader.old.line reader.new.at
        (asked_at (finding p.now.names) form (drop reader.old.at reader.old.text.now)) result }
    ensures written { IfOk result (λ q. IsWrittenQuestion p.now q) }
    ensures inside { reader.new.at ≤ length reader.old.text.now }
    ensures text { reader.new.text ≡ reader.old.text }
    ensures line { reader.new.line ≡ reader.old.line }
{
    match form {
        Form::Trivial => trivial(alloc, reader, p),
        Form::Equal => equal(alloc, reader, p),
        Form::Normal => normal(alloc, reader, p),
        Form::Hom => hom(alloc, reader, p),
    }
}

/// Blanks alone, to the end of the line.
#[tactic(auto, unfolding(derivation::specs::Reading::ending_at))]
pub fn ending(reader: &WordReader) -> Result<(), ReadFault>
    requires { reader.now.at ≤ length reader.now.text.now }
    ensures { GoesOn (λ _. tt) reader.now.text.now reader.now.line reader.now.at
        (ending_at (drop reader.now.at reader.now.text.now)) result }
{
    if reader.is_at_end() {
        Ok(())
    } else {
        Err(reader.unexpected())
    }
}
