//! The Fox vectors of the relators, each made once.

ghost use Rattle.std.specs.Prelude.{IfOk};
ghost use Rattle.flat_cert.specs.Adding.{AreRelators};

use fox_calculus::{fox, image};
use laurent_terms::Mono;
use module_vec::ModVec;
use presentation::Presentation;
use std::alloc::{AllocError, Global};

/// The Fox vector of a relator, and the monomial of its exponent sums.
#[derive(Drop)]
pub struct RelatorVector {
    pub vector: ModVec,
    pub image: Mono,
}

/// The vectors of the relators in order.
pub fn relator_vectors(alloc: Global, p: &Presentation) -> Result<Vec<RelatorVector>, AllocError>
    ensures { IfOk result (λ made. AreRelators p.now.relators made.items) }
{
    p.known();
    let mut made = Vec::new(alloc);
    for r in p.relators() {
        let vector = fox(alloc, p, r)?;
        let image = image(r);
        made.push(RelatorVector { vector, image })?;
    }
    Ok(made)
}
