//! The number of a generator by its name.

ghost use Rattle.std.specs.Prelude.{◌≡◌, ◌<◌, map, option_map, position, string_bytes, IfSome, length};
ghost use Rattle.std.specs.Str.{bytes_eq};
ghost use Rattle.word_text.specs.Machine.{finding};

use crate::presentation::Presentation;

/// The place of this name in the list.
fn place_of(names: &[String], name: &[u8]) -> Option<usize>
    ensures place { result ≡ position (λ n. bytes_eq (string_bytes n) name.now) names.now }
    ensures inside { IfSome result (λ g. g < length names.now) }
{
    names.iter().position(|n| n.as_bytes() == name)
}

/// The number that these names give to a name.
fn number_of(names: &[String], name: &[u8]) -> Option<usize>
    ensures number { result ≡ finding (map string_bytes names.now) name.now }
    ensures inside { IfSome result (λ g. g < length names.now) }
{
    place_of(names, name)
}

impl Presentation {
    /// The number of the generator of this name, if there is one.
    pub fn generator(&self, name: &[u8]) -> Option<u8>
        ensures number { result ≡ finding self.now.names name.now }
        ensures inside { IfSome result (λ g. g < length self.now.names) }
    {
        match number_of(self.names(), name) {
            Some(g) => Some(g as u8),
            None => None,
        }
    }
}
