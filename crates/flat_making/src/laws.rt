//! Laws. Each function does nothing: its contract is the law.

ghost use Rattle.std.specs.Prelude.{◌≡◌, ℕ, List, Result, Ok};
ghost use Rattle.free_words.specs.declared.letter.Letter.{Letter};
ghost use Rattle.presentation.specs.Presented.{Presented, IsPresented};
ghost use Rattle.formal_sums.specs.FormalSum.{FormalSum, Same};
ghost use Rattle.module_vec.specs.declared.places.Place.{Place};
ghost use Rattle.module_vec.specs.declared.steps.Step.{Step};
ghost use Rattle.module_vec.specs.Modules.{sum_of_steps};
ghost use Rattle.module_vec.specs.Places.{same_place};
ghost use Rattle.fox_calculus.specs.Fox.{fox};
ghost use Rattle.report_reading.specs.declared.data.ReportData.{ReportData};
ghost use Rattle.report_reading.specs.declared.entry.EntryData.{EntryData};
ghost use Rattle.report_reading.specs.Reading.{Answers as IsRead};
ghost use Rattle.cert_checker.specs.declared.checked.Checked.{Checked};
ghost use Rattle.cert_checker.specs.Texts.{Answers as IsCheckedText};
ghost use Rattle.flat_cert.specs.declared.faults.FlatSumFault.{FlatSumFault};
ghost use Rattle.flat_cert.specs.declared.lines.Flat.{Flat};
ghost use Rattle.flat_cert.specs.Images.{flat_image};
ghost use Rattle.flat_cert.specs.Certificates.{certificate_sum};
ghost use Rattle.flat_cert.specs.Checking.{Answers};
ghost use Rattle.flat_making.specs.Checked.{IsShownBy, IsChecked, FindsNone};
ghost use Rattle.flat_making.specs.Handing.{IsHanded};
ghost use Rattle.flat_making.specs.Making.{vectors_of};

/// What is read of a report that the checker accepts: the vectors of its entries are the values of their recipes, a yes
/// has a proof for each of its subjects, and each proof adds up to the Fox vector of its subject.
pub fn accepted_reports_hold()
    ensures { (p : Presented) (text : List ℕ) (c : Checked) (d : ReportData) → IsPresented p
        → IsCheckedText p text (Ok c) → IsRead p text (Ok d) → IsChecked p d }
{}

/// A certificate with the sum of a proof of the word: this sum is the flat image of the word's Fox vector, and a check
/// of it says yes or that it is beyond the limits.
#[tactic(auto, using(crate::proofs::Accepted::is_image, crate::proofs::Accepted::is_accepted))]
pub fn certificates_of_proofs_are_accepted()
    ensures sum { (p : Presented) (es : List EntryData) (w : List Letter) (proof : List Step) (list : List Flat)
        → IsShownBy p es w proof
        → Same same_place (flat_image (certificate_sum p list)) (flat_image (sum_of_steps (vectors_of es) proof))
        → Same same_place (flat_image (certificate_sum p list)) (flat_image (fox w)) }
    ensures checked { (p : Presented) (es : List EntryData) (w : List Letter) (proof : List Step) (list : List Flat)
        (r : Result (Unit {0}) FlatSumFault) → IsShownBy p es w proof
        → Same same_place (flat_image (certificate_sum p list)) (flat_image (sum_of_steps (vectors_of es) proof))
        → Answers p w list r → FindsNone r }
{}

/// What is handed in all is one thing alone, so there is one certificate of a proof.
#[tactic(auto, using(crate::proofs::Handings::handed_once, crate::proofs::Handings::handed_there))]
pub fn what_is_handed_is_determined()
    ensures there { (es : List EntryData) (proof : List Step) → (all : FormalSum Place) × IsHanded es proof all }
    ensures once { (es : List EntryData) (proof : List Step) (a b : FormalSum Place)
        → IsHanded es proof a → IsHanded es proof b → a ≡ b }
{}
