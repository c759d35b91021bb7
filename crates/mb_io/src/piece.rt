//! The length of a piece.

ghost use Rattle.std.specs.Prelude.{◌≡◌};
ghost use Rattle.mb_io.specs.Piece as piece;

/// So many bytes, or as many as a piece has where those are fewer.
pub fn in_piece(most: Option<u32>, count: usize) -> usize
    ensures { result ≡ piece.in_piece most count }
{
    most.map_or(count, |most| count.min(most as usize))
}
