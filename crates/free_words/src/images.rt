//! Images of words under a substitution of words for generators.

ghost use Rattle.std.specs.Prelude.{◌≡◌, ◌<◌, ◌^◌, ◌++◌, length, IfOk, OnOk};
ghost use Rattle.free_words.specs.Words.{IsOver, letter_image, word_image};

use crate::letter::Letter;
use crate::making::put_inverse;
use crate::word::Word;
use std::alloc::{AllocError, Global};

/// The length of the image. A word has fewer than 2^32 letters, and so has each image: the sum fits.
pub fn image_len(word: &[Letter], images: &[Word]) -> u64
    requires known { IsOver (length images.now) word.now }
    requires short { length word.now < 2 ^ 32 }
    ensures { result ≡ length (word_image images.now word.now) }
{
    let mut total = 0;
    for l in word {
        total += images[l.g as usize].len() as u64;
    }
    total
}

/// The image. There is room for so many letters from the start.
pub fn image_of(
    alloc: Global,
    word: &[Letter],
    images: &[Word],
    room: usize,
) -> Result<Vec<Letter>, AllocError>
    requires { IsOver (length images.now) word.now }
    ensures { IfOk result (λ v. v.items ≡ word_image images.now word.now) }
{
    let mut letters = Vec::with_capacity(alloc, room)?;
    for l in word {
        put_image(&mut letters, *l, images)?;
    }
    Ok(letters)
}

/// Puts the image of a letter at the end.
fn put_image(letters: &mut Vec<Letter>, l: Letter, images: &[Word]) -> Result<(), AllocError>
    requires { l.g < length images.now }
    ensures { OnOk result (letters.new.items ≡ letters.old.items ++ letter_image images.now l) }
{
    let image = images[l.g as usize].letters();
    if l.inv {
        put_inverse(letters, image)
    } else {
        letters.extend_from_slice(image)
    }
}
