//! `Links`: which entries of a log have one lead component.

ghost use Rattle.std.specs.Prelude.{◌≡◌, ℕ, ◌<◌, ◌≤◌, ◌+◌, ◌^◌, length, Option, None, IfOk, slice_index_or};
ghost use Rattle.std.specs.Prelude.{vec_capacity};
ghost use Rattle.pair_book.specs.Fellows.{AreLinked};

use std::alloc::{AllocError, Global};

/// For each entry the last one before it in the same component, and the last entry of each component.
#[derive(Drop)]
pub struct Links {
    before: Vec<Option<u32>>,
    last: Vec<Option<u32>>,
}

impl Links {
    /// The links of no entries, with room for so many.
    pub fn with_room(alloc: Global, room: u32) -> Result<Links, AllocError>
        ensures linked { IfOk result (λ links. (component : ℕ → ℕ)
            → AreLinked component 0 links.before.items links.last.items) }
        ensures room { IfOk result (λ links. room ≤ vec_capacity links.before) }
    {
        let before = Vec::with_capacity(alloc, room as usize)?;
        let last = none_of_any(alloc)?;
        Ok(Links { before, last })
    }

    /// Links one more entry, with this component. No memory is taken.
    pub fn push(&mut self, component: u8)
        requires room { length self.old.before.items < vec_capacity self.old.before }
        requires few { length self.old.before.items + 1 < 2 ^ 32 }
        requires components { length self.old.last.items ≡ 2 ^ 8 }
        ensures linked { (components : ℕ → ℕ) (n : ℕ) → AreLinked components n self.old.before.items self.old.last.items
            → components n ≡ component →
            AreLinked components (n + 1) self.new.before.items self.new.last.items }
        ensures room { vec_capacity self.new.before ≡ vec_capacity self.old.before }
    {
        let number = self.before.len() as u32;
        let last = self.last[component as usize];
        self.last[component as usize] = Some(number);
        self.before.push_reserved(last);
    }

    /// The last entry before this one in its component.
    pub fn previous(&self, at: u32) -> Option<u32>
        requires { at < length self.now.before.items }
        ensures { result ≡ slice_index_or self.now.before.items at None }
    {
        self.before[at as usize]
    }

    /// The last entry of a component.
    pub fn last(&self, component: u8) -> Option<u32>
        requires { component < length self.now.last.items }
        ensures { result ≡ slice_index_or self.now.last.items component None }
    {
        self.last[component as usize]
    }
}

/// No entry for each component.
fn none_of_any(alloc: Global) -> Result<Vec<Option<u32>>, AllocError>
    ensures length { IfOk result (λ last. length last.items ≡ 2 ^ 8) }
    ensures none { IfOk result (λ last. (c : ℕ) → c < 2 ^ 8 → slice_index_or last.items c None ≡ None) }
{
    let mut last = Vec::new(alloc);
    last.resize(usize::from(u8::MAX) + 1, None)?;
    Ok(last)
}
