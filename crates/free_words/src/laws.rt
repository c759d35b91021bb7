//! Laws of words: each function's contract is a law, and it does nothing.

ghost use Rattle.std.specs.Prelude.{◌≡◌, ◌+◌, ◌*◌, ◌++◌, ◌∷◌, slice_index_or, false, ℕ, ℤ, pos, neg_ℤ, ◌+ℤ◌, List, []};
ghost use Rattle.std.specs.List.{AllByRecursion};
ghost use Rattle.free_words.specs.declared.letter.Letter.{Letter};
ghost use Rattle.free_words.specs.Words.{IsOver, inverse, power, commutator, IsReduced, Cancels, word_image};
ghost use Rattle.free_words.specs.Words.{exponent_sum};

/// A word has one freely reduced form: in whichever order pairs are left out, the same reduced word is left.
#[tactic(auto, using(crate::proofs::ReductionLemmas::reductions))]
pub fn reduced_form_is_unique()
    ensures { (w u v : List Letter) → Cancels w u → Cancels w v → IsReduced u → IsReduced v → u ≡ v }
{}

/// Each word has a freely reduced form.
#[tactic(auto, using(crate::proofs::ReductionLemmas::reduced_form))]
pub fn reduced_form_exists()
    ensures { (w : List Letter) → (v : List Letter) × Cancels w v × IsReduced v }
{}

/// A word followed by its inverse cancels to the empty word.
#[tactic(auto, using(crate::proofs::ReductionLemmas::reductions))]
pub fn inverse_cancels()
    ensures { (w : List Letter) → Cancels (w ++ inverse w) [] }
{}

/// The inverse of a product is the product of the inverses in reverse.
#[tactic(auto, using(crate::proofs::WordLemmas::inverses))]
pub fn inverse_of_product()
    ensures { (u v : List Letter) → inverse (u ++ v) ≡ inverse v ++ inverse u }
{}

/// Inverting twice gives the word back.
#[tactic(auto, using(crate::proofs::WordLemmas::inverses))]
pub fn inverse_of_inverse()
    ensures { (w : List Letter) → inverse (inverse w) ≡ w }
{}

/// The power of a sum is the product of the powers, where both numbers are natural.
#[tactic(auto, using(crate::proofs::WordLemmas::powers))]
pub fn power_of_sum()
    ensures { (w : List Letter) (m n : ℕ) → power w (pos (m + n)) ≡ power w (pos m) ++ power w (pos n) }
{}

/// The power of a product is the power of the power, where both numbers are natural.
#[tactic(auto, using(crate::proofs::WordLemmas::powers))]
pub fn power_of_product()
    ensures { (w : List Letter) (m n : ℕ) → power w (pos (m * n)) ≡ power (power w (pos n)) (pos m) }
{}

/// The power of the opposite number is the inverse of the power.
#[tactic(auto, using(crate::proofs::WordLemmas::powers))]
pub fn power_of_opposite()
    ensures { (w : List Letter) (k : ℤ) → power w (neg_ℤ k) ≡ inverse (power w k) }
{}

/// The image of a generator is the word that is put for it.
#[tactic(auto, using(crate::proofs::ImageLemmas::images_of))]
pub fn image_of_generator()
    ensures { (images : List (List Letter)) (g : ℕ) → word_image images (record { g = g; inv = false } ∷ [])
        ≡ slice_index_or images g [] }
{}

/// The image of a product is the product of the images.
#[tactic(auto, using(crate::proofs::ImageLemmas::images_of))]
pub fn image_of_product()
    ensures { (images : List (List Letter)) (u v : List Letter)
        → word_image images (u ++ v) ≡ word_image images u ++ word_image images v }
{}

/// The image of an inverse is the inverse of the image.
#[tactic(auto, using(crate::proofs::ImageLemmas::images_of))]
pub fn image_of_inverse()
    ensures { (images : List (List Letter)) (w : List Letter)
        → word_image images (inverse w) ≡ inverse (word_image images w) }
{}

/// The image of a power is the power of the image.
#[tactic(auto, using(crate::proofs::ImageLemmas::images_of))]
pub fn image_of_power()
    ensures { (images : List (List Letter)) (w : List Letter) (k : ℤ)
        → word_image images (power w k) ≡ power (word_image images w) k }
{}

/// The image of a commutator is the commutator of the images.
#[tactic(auto, using(crate::proofs::ImageLemmas::images_of))]
pub fn image_of_commutator()
    ensures { (images : List (List Letter)) (u v : List Letter)
        → word_image images (commutator u v) ≡ commutator (word_image images u) (word_image images v) }
{}

/// Leaving out pairs in a word leaves out pairs in its image.
#[tactic(auto, using(crate::proofs::ImageLemmas::images_of))]
pub fn image_of_cancelled()
    ensures { (images : List (List Letter)) (w v : List Letter) → Cancels w v
        → Cancels (word_image images w) (word_image images v) }
{}

/// The image of a word is over n generators where each of the images is.
#[tactic(auto, using(crate::proofs::OverLemmas::over_images))]
pub fn image_is_over()
    ensures { (n : ℕ) (images : List (List Letter)) (w : List Letter) → AllByRecursion (IsOver n) images
        → IsOver n (word_image images w) }
{}

/// The exponent sum of a product is the sum of the exponent sums.
#[tactic(auto, using(crate::proofs::SumLemmas::sums_of))]
pub fn exponent_sum_of_product()
    ensures { (g : ℕ) (u v : List Letter) → exponent_sum g (u ++ v) ≡ exponent_sum g u +ℤ exponent_sum g v }
{}

/// The exponent sum of an inverse is the opposite of the exponent sum.
#[tactic(auto, using(crate::proofs::SumLemmas::sums_of))]
pub fn exponent_sum_of_inverse()
    ensures { (g : ℕ) (w : List Letter) → exponent_sum g (inverse w) ≡ neg_ℤ (exponent_sum g w) }
{}

/// The exponent sums of a commutator are 0.
#[tactic(auto, using(crate::proofs::SumLemmas::sums_of))]
pub fn exponent_sum_of_commutator()
    ensures { (g : ℕ) (u v : List Letter) → exponent_sum g (commutator u v) ≡ pos 0 }
{}

/// Leaving out pairs changes no exponent sum.
#[tactic(auto, using(crate::proofs::SumLemmas::sums_of))]
pub fn exponent_sum_is_kept()
    ensures { (g : ℕ) (w v : List Letter) → Cancels w v → exponent_sum g w ≡ exponent_sum g v }
{}
