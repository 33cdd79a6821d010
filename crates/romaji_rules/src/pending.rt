ghost use Rattle.std.specs.Prelude.{◌≡◌, ◌≤◌, ◌<◌, ◌↔◌, IsTrue, ℕ, List, [], ◌∷◌, ◌++◌, length, slice_index, IsAscii};
ghost use Rattle.skk_text.specs.Text.{without_last};

use std::marker::Model;
use std::str;

/// The most letters that wait.
const MOST: usize = 8;

/// The letters that were typed and wait for more: at most 8 bytes of ASCII.
#[derive(Drop)]
pub struct Pending {
    // They stand in front; behind them is nothing that counts.
    letters: [u8; MOST],
    count: usize,
}

impl Model for Pending {
    ghost use Rattle.std.specs.Prelude.{◌≡◌, ◌≤◌, List, ℕ, take, length, IsAscii};

    ghost Value = { List ℕ };

    ghost view = { λ p. take p.count p.letters };

    ghost invariant = { λ p. (p.count ≤ 8) × (length p.letters ≡ 8) × IsAscii (take p.count p.letters) };
}

impl Pending {
    /// Nothing pending. Takes no memory.
    pub fn new() -> Pending
        ensures { result ≡ [] }
    {
        Pending {
            letters: [0; MOST],
            count: 0,
        }
    }

    /// These letters.
    pub fn of(letters: &[u8]) -> Pending
        requires ascii { IsAscii letters.now }
        requires short { length letters.now ≤ 8 }
        ensures { result ≡ letters.now }
    {
        let mut pending = Pending::new();
        for letter in letters {
            pending.push(*letter);
        }
        pending
    }

    /// The same letters. Takes no memory.
    pub fn copied(&self) -> Pending
        ensures { result ≡ self.now }
    {
        Pending {
            letters: self.letters,
            count: self.count,
        }
    }

    // Adds a letter.
    pub(crate) fn push(&mut self, letter: u8)
        requires room { length self.old < 8 }
        requires ascii { letter < 128 }
        ensures { self.new ≡ self.old ++ letter ∷ [] }
    {
        self.letters[self.count] = letter;
        self.count += 1;
    }

    /// Whether nothing is pending.
    pub fn is_empty(&self) -> bool
        ensures { IsTrue result ↔ (self.now ≡ []) }
    {
        self.count == 0
    }

    /// Takes the last letter off, where there is one. Takes no memory.
    pub fn delete_last(&mut self)
        ensures { self.new ≡ without_last self.old }
    {
        self.count = self.count.saturating_sub(1);
    }

    /// The letters.
    pub fn as_slice(&self) -> &[u8]
        ensures value { result.now ≡ self.now }
        ensures short { length self.now ≤ 8 }
        ensures ascii { IsAscii self.now }
    {
        &self.letters[..self.count]
    }

    /// The letters as a text.
    pub fn as_str(&self) -> &str
        ensures value { result.now ≡ self.now }
        ensures ascii { IsAscii self.now }
    {
        str::from_utf8(self.as_slice()).unwrap()
    }
}
