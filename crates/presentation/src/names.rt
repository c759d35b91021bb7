//! The names of a presentation's text.

ghost use Rattle.std.specs.Prelude.{◌≡◌, ◌<◌, ◌≤◌, IfOk, length, map, string_bytes};
ghost use Rattle.std.specs.List.{list_any};
ghost use Rattle.std.specs.Str.{bytes_eq, IsUtf8};
ghost use Rattle.word_text.specs.Scan.{Gives, mark_of, name_at};
ghost use Rattle.presentation.specs.Reading.{new_name, name_behind, names_at};

use free_words::GENERATORS;
use std::alloc::{AllocError, Global};
use word_text::{
    Fault, Mark, ReadError, TextKind, after_first, due, first_is, mark_at, skip_blanks, split_name,
};

/// Whether one of the texts has these bytes.
fn any_is(texts: &[String], bytes: &[u8]) -> bool
    ensures { result ≡ list_any (λ t. bytes_eq bytes.now (string_bytes t)) texts.now }
{
    texts.iter().any(|t| bytes == t.as_bytes())
}

/// Whether one of the names is this one.
fn has(names: &[String], name: &[u8]) -> bool
    ensures { result ≡ list_any (bytes_eq name.now) (map string_bytes names.now) }
{
    any_is(names, name)
}

/// The name as a text.
fn text_of(alloc: Global, name: &[u8]) -> Result<String, AllocError>
    requires { IsUtf8 name.now }
    ensures { IfOk result (λ s. string_bytes s ≡ name.now) }
{
    String::from_str(alloc, str::from_utf8(name).unwrap())
}

/// The name that stands here, where there is room for it behind the others and it isn't one of them.
fn new_name<'a>(seen: &[String], text: &'a [u8]) -> Result<(&'a [u8], &'a [u8]), ReadError>
    ensures exact { Gives (λ x. (x.0.now, x.1.now)) result (new_name (map string_bytes seen.now) text.now) }
    ensures room { IfOk result (λ _. length seen.now < GENERATORS) }
    ensures name { IfOk result (λ x. x.0.now ≡ name_at text.now) }
{
    let (name, rest) = split_name(text);
    if seen.len() >= GENERATORS as usize {
        return Err(ReadError::Text(Fault {
            kind: TextKind::TooManyNames,
            left: text.len(),
        }));
    }
    if has(seen, name) {
        return Err(ReadError::Text(Fault {
            kind: TextKind::RepeatedName,
            left: text.len(),
        }));
    }
    Ok((name, rest))
}

/// The name that is due behind the others, and what follows it and its blanks.
#[tactic(auto, unfolding(crate::specs::Reading::name_behind))]
fn name_behind<'a>(seen: &[String], text: &'a [u8]) -> Result<(&'a [u8], &'a [u8]), ReadError>
    ensures exact { Gives (λ x. (x.0.now, x.1.now)) result (name_behind (map string_bytes seen.now) text.now) }
    ensures room { IfOk result (λ _. length seen.now < GENERATORS) }
    ensures utf8 { IfOk result (λ x. IsUtf8 x.0.now) }
{
    let here = skip_blanks(text);
    match mark_at(here) {
        Mark::Letter => {
            let (name, rest) = new_name(seen, here)?;
            Ok((name, skip_blanks(rest)))
        }
        _ => Err(ReadError::Text(due(here))),
    }
}

/// The names that stand here with commas between them, and what follows them and their blanks.
pub fn names<'a>(alloc: Global, text: &'a [u8]) -> Result<(Vec<String>, &'a [u8]), ReadError>
    ensures exact { Gives (λ x. (map string_bytes x.0.items, x.1.now)) result (names_at text.now) }
    ensures few { IfOk result (λ x. length x.0.items ≤ GENERATORS) }
{
    let mut names = Vec::new(alloc);
    let mut rest = text;
    loop {
        let (name, after) = name_behind(&names, rest)?;
        names.push(text_of(alloc, name)?)?;
        if !first_is(b',', after) {
            return Ok((names, after));
        }
        rest = after_first(after);
    }
}
