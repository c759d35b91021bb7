//! A finite presentation: names of generators, relators, and the exponent of the derived subgroup.

ghost use Rattle.std.specs.Prelude.{◌≡◌, ◌<◌, ◌≤◌, ◌^◌, length, map, string_bytes, slice_get, Some, IfSome};
ghost use Rattle.presentation.specs.Presented.{Presented, IsPresented, IsModulus};

use free_words::Word;
use std::marker::Model;

/// A presentation, seen as its names, its relators and its modulus.
#[derive(Drop)]
pub struct Presentation {
    names: Vec<String>,
    relators: Vec<Word>,
    modulus: u32,
}

impl Model for Presentation {
    ghost use Rattle.std.specs.Prelude.{map, string_bytes};
    ghost use Rattle.presentation.specs.Presented.{Presented, IsPresented};

    ghost Value = { Presented };

    ghost view = { λ p. record {
      names = map string_bytes p.names.items;
      relators = p.relators.items;
      modulus = p.modulus;
    } };

    ghost invariant = { λ p. IsPresented (record {
      names = map string_bytes p.names.items;
      relators = p.relators.items;
      modulus = p.modulus;
    }) };
}

impl Presentation {
    /// The presentation of these names, relators and modulus.
    pub(crate) fn of(names: Vec<String>, relators: Vec<Word>, modulus: u32) -> Presentation
        requires { IsPresented (record {
          names = map string_bytes names.items;
          relators = relators.items;
          modulus = modulus;
        }) }
        ensures { result ≡ record {
          names = map string_bytes names.items;
          relators = relators.items;
          modulus = modulus;
        } }
    {
        Presentation {
            names,
            relators,
            modulus,
        }
    }

    /// The presentation with this modulus in place of its own.
    pub(crate) fn with_modulus(self, modulus: u32) -> Presentation
        requires { IsModulus modulus }
        ensures { result ≡ record self { modulus = modulus } }
    {
        let Presentation {
            names,
            relators,
            ..
        } = self;
        Presentation {
            names,
            relators,
            modulus,
        }
    }

    /// The number of generators.
    pub fn count(&self) -> u8
        ensures { result ≡ length self.now.names }
    {
        self.names.len() as u8
    }

    /// The name of a generator.
    pub fn name(&self, g: u8) -> &str
        requires { g < length self.now.names }
        ensures { slice_get self.now.names g ≡ Some result.now }
    {
        self.names[g as usize].as_str()
    }

    /// The names in order.
    pub(crate) fn names(&self) -> &[String]
        ensures names { map string_bytes result.now ≡ self.now.names }
        ensures few { length result.now ≤ 24 }
    {
        &self.names
    }

    /// The relators in order.
    pub fn relators(&self) -> &[Word]
        ensures { result.now ≡ self.now.relators }
    {
        &self.relators
    }

    /// The exponent that the derived subgroup of the quotient is to have; 0 for none.
    pub fn modulus(&self) -> u32
        ensures { result ≡ self.now.modulus }
    {
        self.modulus
    }

    /// What holds of every presentation: its names, relators and modulus are within their limits.
    pub fn known(&self)
        ensures { IsPresented self.now }
    {
        let _modulus = &self.modulus;
    }
}
