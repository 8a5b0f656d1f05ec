// The names of the leaves before a leaf.
ghost use Rattle.std.specs.Prelude.{◌≡◌, ℕ, ◌<◌, ◌≤◌, List, [], ◌∷◌, ◌++◌, length, map};
ghost use Rattle.section.specs.Layout.{times};

use arrayvec::ArrayVec;
use std::marker::Model;

// The most leaves that a board has.
pub const MOST_LEAVES: usize = 16;

// In the order of the leaves, at most 16: `as` loses nothing of a count.
#[derive(Drop)]
pub struct NamesBefore {
    names: ArrayVec<&'static [u8], MOST_LEAVES>,
}

impl Model for NamesBefore {
    ghost Value = { List (List ℕ) };

    ghost view = { λ before. map (λ name. name.now) before.names.items };
}

impl NamesBefore {
    // Before the first leaf.
    pub fn none() -> NamesBefore
        ensures { result ≡ [] }
    {
        NamesBefore {
            names: ArrayVec::new(),
        }
    }

    // Adds the name of the next leaf.
    pub fn push(&mut self, name: &'static [u8])
        requires { length self.old < 16 }
        ensures { self.new ≡ self.old ++ name.now ∷ [] }
    {
        self.names.push(name);
    }

    // The number of the leaf that these names stand before.
    pub fn number(&self) -> u32
        ensures value { result ≡ length self.now }
        ensures few { length self.now ≤ 16 }
    {
        self.names.len() as u32
    }

    // How many leaves of a name stand before.
    pub fn instance(&self, name: &[u8]) -> u32
        ensures { result ≡ times name.now self.now }
    {
        let names = self.names.as_slice();
        names.iter().filter(|known| **known == name).count() as u32
    }
}
