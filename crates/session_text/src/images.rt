//! Images that are too long.

ghost use Rattle.std.specs.Prelude.{◌≡◌, ◌<◌, ◌↔◌, length, position, nat_lt, None, IfSome, IsTrue};
ghost use Rattle.std.specs.List.{AllByRecursion};
ghost use Rattle.free_words.specs.declared.TheConstants.{COMPOSED};
ghost use Rattle.free_words.specs.Words.{IsOver, word_image};
ghost use Rattle.session_text.specs.Questions.{IsFormed, HasImages, first_long, first_long_image};

use crate::question::Question;
use free_words::{COMPOSED, Word};

// Where the first word stands whose image is past the limit on composed words.
fn first_passing(words: &[Word], images: &[Word]) -> Option<usize>
    requires { AllByRecursion (IsOver (length images.now)) words.now }
    ensures place { result ≡ position (λ r. nat_lt COMPOSED (length (word_image images.now r))) words.now }
    ensures inside { IfSome result (λ j. j < length words.now) }
{
    for (j, word) in words.iter().enumerate() {
        if word.substituted_len(images) > COMPOSED as u64 {
            return Some(j);
        }
    }
    None
}

/// Where the first relator of a source stands whose image is past the limit on composed words.
pub fn first_long(q: &Question) -> Option<usize>
    requires { IsFormed q.now }
    ensures place { result ≡ first_long q.now }
    ensures inside { IfSome result (λ j. j < 64) }
{
    match q {
        Question::Hom { source, images } => {
            source.known();
            first_passing(source.relators(), images.words())
        }
        _ => None,
    }
}

/// The number, counted from 1, of the first relator of a source whose image has more than [`COMPOSED`] letters.
pub fn first_long_image(q: &Question) -> Option<u32>
    requires { IsFormed q.now }
    ensures number { result ≡ first_long_image q.now }
    // Where there is none, all images are within that limit.
    ensures fits { result ≡ None → HasImages q.now }
{
    let place = first_long(q)?;
    Some(place as u32 + 1)
}

/// Whether the images of a source's relators are within the limit on composed words.
pub fn has_images(q: &Question) -> bool
    requires { IsFormed q.now }
    ensures is { IsTrue result ↔ HasImages q.now }
    ensures first { IsTrue result ↔ (first_long_image q.now ≡ None) }
{
    first_long_image(q).is_none()
}
