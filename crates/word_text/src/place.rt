//! Where a fault stands: its line and column.

ghost use Rattle.std.specs.Prelude.{◌≡◌, ◌+◌, ◌==◌, length, count_by, take_while, reverse, not};
ghost use Rattle.word_text.specs.Place.{capped, placed, on_line};

use crate::fault::{Fault, TextFault};

fn line_feeds(front: &[u8]) -> usize
    ensures { result ≡ count_by (λ b. b == 10) front.now }
{
    front.iter().filter(|b| **b == b'\n').count()
}

fn bytes_of_line(front: &[u8]) -> usize
    ensures { result ≡ length (take_while (λ b. not (b == 10)) (reverse front.now)) }
{
    front.iter().rev().take_while(|b| **b != b'\n').count()
}

fn capped_after(n: usize) -> u32
    ensures { result ≡ capped (1 + n) }
{
    if n < 4294967295 {
        n as u32 + 1
    } else {
        4294967295
    }
}

/// The fault with its line and column in a text of several lines.
#[tactic(auto, unfolding(crate::specs::Place::placed))]
pub fn placed(text: &[u8], fault: Fault) -> TextFault
    ensures { result ≡ placed text.now fault }
{
    let (front, _) = text.split_at(text.len().saturating_sub(fault.left));
    TextFault {
        line: capped_after(line_feeds(front)),
        column: capped_after(bytes_of_line(front)),
        kind: fault.kind,
    }
}

/// The fault with its column in this line.
#[tactic(auto, unfolding(crate::specs::Place::on_line))]
pub fn on_line(text: &[u8], line: u32, fault: Fault) -> TextFault
    ensures { result ≡ on_line text.now line fault }
{
    let at = text.len().saturating_sub(fault.left);
    let column = if at < 4294967295 {
        at as u32 + 1
    } else {
        4294967295
    };
    TextFault {
        line,
        column,
        kind: fault.kind,
    }
}
