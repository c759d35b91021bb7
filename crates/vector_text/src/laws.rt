//! Laws of the texts: a text is that of one value.

ghost use Rattle.std.specs.Prelude.{◌≡◌, ℕ, List, length};
ghost use Rattle.presentation.specs.Presented.{Presented, IsPresented};
ghost use Rattle.module_vec.specs.declared.places.Place.{Place};
ghost use Rattle.module_vec.specs.declared.places.Term.{Term};
ghost use Rattle.vector_text.specs.Spelling.{monomial_text, place_text, vector_text};
ghost use Rattle.vector_text.specs.Over.{IsMonoOf, IsPlaceOf, IsVectorOf};

/// A text is that of one monomial.
#[tactic(auto, using(crate::proofs::ReadingBack::one_monomial))]
pub fn one_monomial()
    ensures { (p : Presented) (s t : List ℕ) → IsPresented p → IsMonoOf (length p.names) s → IsMonoOf (length p.names) t
        → monomial_text p.names s ≡ monomial_text p.names t → s ≡ t }
{}

/// A text is that of one place.
#[tactic(auto, using(crate::proofs::ReadingBack::one_place))]
pub fn one_place()
    ensures { (p : Presented) (x y : Place) → IsPresented p → IsPlaceOf (length p.names) x
        → IsPlaceOf (length p.names) y
        → place_text p.names x ≡ place_text p.names y → x ≡ y }
{}

/// A text is that of one vector.
#[tactic(auto, using(crate::proofs::ReadingBack::one_vector))]
pub fn one_vector()
    ensures { (p : Presented) (v w : List Term) → IsPresented p → IsVectorOf (length p.names) v
        → IsVectorOf (length p.names) w
        → vector_text p.names v ≡ vector_text p.names w → v ≡ w }
{}
