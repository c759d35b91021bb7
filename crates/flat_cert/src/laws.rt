//! Laws. Each function does nothing: its contract is the law.

ghost use Rattle.std.specs.Prelude.{negsuc, List, length, ◌++◌, Result, Vec};
ghost use Rattle.std.specs.declared.alloc.Global.{Global};
ghost use Rattle.free_words.specs.declared.letter.Letter.{Letter};
ghost use Rattle.presentation.specs.Presented.{Presented, IsPresented};
ghost use Rattle.derivation.specs.Moves.{IsWordOver, Trivial};
ghost use Rattle.formal_sums.specs.FormalSum.{FormalSum, Same, scale};
ghost use Rattle.module_vec.specs.declared.places.Place.{Place};
ghost use Rattle.module_vec.specs.Places.{same_place};
ghost use Rattle.fox_calculus.specs.Fox.{fox};
ghost use Rattle.flat_cert.specs.declared.lines.Flat.{Flat};
ghost use Rattle.flat_cert.specs.Images.{flat_image, IsSumOver, IsSumOfUnits};
ghost use Rattle.flat_cert.specs.Certificates.{AreFlat, certificate_sum};
ghost use Rattle.flat_cert.specs.declared.faults.FlatTextFault.{FlatTextFault};
ghost use Rattle.flat_cert.specs.Texts.{certificate_text, IsCertificate, ReadsText, IsReadBack};

/// Vectors with one flat image differ by a sum of multiples of unit binomials.
#[tactic(auto, using(crate::proofs::Images::images_determine))]
pub fn images_determine()
    ensures { (p : Presented) (v w : FormalSum Place) → IsPresented p → IsSumOver (length p.names) v
        → IsSumOver (length p.names) w → Same same_place (flat_image v) (flat_image w)
        → IsSumOfUnits p (v ++ scale (negsuc 0) w) }
{}

/// A word is trivial whose Fox vector has the flat image of the sum of a certificate.
#[tactic(auto, using(crate::proofs::Certified::certified_is_trivial))]
pub fn certified_is_trivial()
    ensures { (p : Presented) (w : List Letter) (ls : List Flat) → IsPresented p → IsWordOver p w → AreFlat p ls
        → Same same_place (flat_image (fox w)) (flat_image (certificate_sum p ls)) → Trivial p w }
{}

/// What is written of a certificate is read back: to its text the reader answers the certificate, unless memory runs
/// out.
#[tactic(auto, using(crate::proofs::ReadingBack::is_read_back))]
pub fn written_certificates_are_read_back()
    ensures { (p : Presented) (ls : List Flat) (r : Result (Vec Flat Global) FlatTextFault) → IsPresented p
        → IsCertificate p ls → ReadsText p (certificate_text p.names ls) r → IsReadBack ls r }
{}
