//! The flat certificate of a proof.

ghost use Rattle.std.specs.List.{AllByRecursion};
ghost use Rattle.std.specs.Prelude.{IfOk};
ghost use Rattle.formal_sums.specs.FormalSum.{Same};
ghost use Rattle.module_vec.specs.Modules.{sum_of_steps};
ghost use Rattle.module_vec.specs.Places.{same_place};
ghost use Rattle.module_vec.specs.Vectors.{IsVector};
ghost use Rattle.flat_cert.specs.Images.{flat_image};
ghost use Rattle.flat_cert.specs.Certificates.{certificate_sum};
ghost use Rattle.flat_cert.specs.Texts.{IsCertificate};
ghost use Rattle.flat_making.specs.Making.{IsLog, IsProof, Answers, vectors_of};

use crate::handed::Handed;
use crate::handing::hand_down;
use crate::kinds::generator_kinds;
use crate::lines::certificate_lines;
use flat_cert::{Flat, FlatFault};
use laurent_terms::Mono;
use module_vec::Step;
use presentation::Presentation;
use report_reading::EntryData;
use std::alloc::Global;

/// The flat certificate of a proof by these entries: what the proof hands to the entries, and these from the last to
/// the first to entries before them, comes to stand at the entries of generators.
///
/// `Beyond` comes exactly where something is handed at a vector of too great a degree, where the absolute values of all
/// that is handed to one entry at one vector add up past the range of coefficients, or where something is handed to
/// more than [`PLACES`](flat_cert::PLACES) pairs of an entry and a vector.
pub fn flatten(
    alloc: Global,
    p: &Presentation,
    entries: &[EntryData],
    proof: &[Step],
) -> Result<Vec<Flat>, FlatFault>
    requires log { IsLog p.now entries.now }
    requires proof { IsProof p.now entries.now proof.now }
    ensures exact { Answers p.now entries.now proof.now result }
    ensures certificate { IfOk result (λ list. IsCertificate p.now list.items) }
    ensures sum { IfOk result (λ list. Same same_place (flat_image (certificate_sum p.now list.items))
        (flat_image (sum_of_steps (vectors_of entries.now) proof.now))) }
{
    p.known();
    vectors_known(entries);
    let mut handed = Handed::new(alloc);
    handed.hand_on(1, &Mono::one(), proof)?;
    hand_down(alloc, entries, &mut handed)?;
    let kinds = generator_kinds(alloc, p)?;
    let list = certificate_lines(alloc, entries, &kinds, &handed)?;
    Ok(list)
}

/// What holds of the vectors. The call does nothing: where it is compiled no loop is left of it.
fn vectors_known(entries: &[EntryData])
    ensures { AllByRecursion (λ e. IsVector e.vector) entries.now }
{
    for entry in entries {
        entry.vector.terms();
    }
}
