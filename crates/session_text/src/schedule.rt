//! Schedules as texts: the order in which workers and sessions take their turns.

ghost use Rattle.std.specs.Prelude.{◌≡◌, ◌<◌, ◌≤◌, ◌+◌, length, take_while, All, IfOk, IfSome, List, Ok};
ghost use Rattle.word_text.specs.Scan.{Gives, Tells};
ghost use Rattle.session_text.specs.Schedule.{IsEvent, small_number, event_of, event_at, schedule_text, ReadsSchedule};
ghost use Rattle.session_text.specs.Schedule.{is_token_byte, token_at, after_token};
ghost use Rattle.session_text.specs.ScheduleGrammar.{IsSchedule};
ghost use Rattle.session_text.specs.declared.question.Event.{Event};

use crate::question::Event;
use std::alloc::Global;
use word_text::{Fault, ReadError, ReadFault, TextKind, placed, skip_blanks};

// The number from 1 to 16 that is spelled without a leading zero.
fn small_number(digits: &[u8]) -> Option<u32>
    ensures number { result ≡ small_number digits.now }
    ensures range { IfSome result (λ n. (1 ≤ n) × (n ≤ 16)) }
{
    match digits {
        [d] if matches!(*d, b'1'..=b'9') => Some((*d - b'0') as u32),
        [b'1', d] if matches!(*d, b'0'..=b'6') => Some((*d - b'0') as u32 + 10),
        _ => None,
    }
}

// The event of a token, which is `w` or `s` and a number.
fn event_of(token: &[u8]) -> Option<Event>
    ensures event { result ≡ event_of token.now }
    ensures some { IfSome result (λ e. 0 < length token.now) }
    ensures range { IfSome result (λ e. IsEvent 16 e) }
{
    match token {
        [b'w', number @ ..] => Some(Event::Worker(small_number(number)?)),
        [b's', number @ ..] => Some(Event::Session(small_number(number)?)),
        _ => None,
    }
}

// Whether the byte is no blank.
#[tactic(auto, unfolding(crate::specs::Schedule::is_token_byte, word_text::specs::Scan::is_blank))]
fn is_token_byte(b: u8) -> bool
    ensures { result ≡ is_token_byte b }
{
    !matches!(b, b' ' | b'\t' | b'\r' | b'\n')
}

// The number of bytes before the first blank.
fn token_byte_count(text: &[u8]) -> usize
    ensures { result ≡ length (take_while is_token_byte text.now) }
{
    text.iter().take_while(|b| is_token_byte(**b)).count()
}

// The token that stands here, which goes up to the next blank or the end, and what follows it.
#[tactic(auto, unfolding(crate::specs::Schedule::token_at, crate::specs::Schedule::after_token))]
fn split_token(text: &[u8]) -> (&[u8], &[u8])
    ensures token { result.0.now ≡ token_at text.now }
    ensures rest { result.1.now ≡ after_token text.now }
    ensures shorter { length result.0.now + length result.1.now ≡ length text.now }
{
    let n = token_byte_count(text);
    text.split_at(n)
}

// The event that stands here, and what follows it.
fn event_at(sessions: u32, text: &[u8]) -> Result<(Event, &[u8]), Fault>
    ensures exact { Tells (λ x. (x.0, x.1.now)) result (event_at sessions text.now) }
    ensures range { IfOk result (λ x. IsEvent sessions x.0) }
    ensures shorter { IfOk result (λ x. length x.1.now < length text.now) }
{
    let (token, rest) = split_token(text);
    match event_of(token) {
        None => Err(Fault {
            kind: TextKind::Expected,
            left: text.len(),
        }),
        Some(Event::Session(n)) if n > sessions => Err(Fault {
            kind: TextKind::NoSession,
            left: text.len(),
        }),
        Some(event) => Ok((event, rest)),
    }
}

// The events that are the whole text.
fn events(alloc: Global, sessions: u32, text: &[u8]) -> Result<Vec<Event>, ReadError>
    ensures exact { Gives (λ v. v.items) result (schedule_text sessions text.now) }
    ensures range { IfOk result (λ v. All (IsEvent sessions) v.items) }
{
    let mut events = Vec::new(alloc);
    let mut rest = skip_blanks(text);
    while !rest.is_empty() {
        let (event, after) = event_at(sessions, rest)?;
        events.push(event)?;
        rest = skip_blanks(after);
    }
    Ok(events)
}

// The events that the text spells, or the first fault.
fn read_exactly(alloc: Global, text: &[u8], sessions: u32) -> Result<Vec<Event>, ReadFault>
    ensures exact { ReadsSchedule text.now (schedule_text sessions text.now) result }
    ensures range { IfOk result (λ v. All (IsEvent sessions) v.items) }
{
    match events(alloc, sessions, text) {
        Ok(events) => Ok(events),
        Err(ReadError::NoMemory) => Err(ReadFault::NoMemory),
        Err(ReadError::Text(fault)) => Err(ReadFault::Text(placed(text, fault))),
    }
}

/// The events that the text spells: `w3` is a turn of worker 3, `s1` one of session 1, with blanks between them. Their
/// numbers are from 1 to 16. A token goes up to the next blank. One that is a session past the number of sessions is
/// NoSession at its first byte, and any other Expected at its own.
pub fn read_schedule(alloc: Global, text: &[u8], sessions: u32) -> Result<Vec<Event>, ReadFault>
    // The text is a schedule of the grammar, with these events.
    ensures found { IfOk result (λ v. IsSchedule sessions text.now v.items) }
    // Where the text is a schedule of the grammar, its events are read, unless memory runs out.
    ensures only { (es : List Event) → IsSchedule sessions text.now es → ReadsSchedule text.now (Ok es) result }
    // Which events, or which fault, and where.
    ensures exact { ReadsSchedule text.now (schedule_text sessions text.now) result }
    ensures range { IfOk result (λ v. All (IsEvent sessions) v.items) }
{
    read_exactly(alloc, text, sessions)
}
