use reading_state::Reading;
use std::marker::Model;

/// A reading that words are found or learnt for (見出し語): it is not empty.
#[derive(Drop)]
pub struct Headword {
    reading: Reading,
}

impl Model for Headword {
    ghost use Rattle.std.specs.Prelude.{◌≢◌, []};
    ghost use Rattle.reading_state.specs.Puts.{Reading};

    ghost Value = { Reading };

    ghost view = { λ h. h.reading };

    ghost invariant = { λ h. h.reading.text ≢ [] };
}

impl Headword {
    ghost use Rattle.std.specs.Prelude.{◌≡◌, ◌≢◌, []};

    // The headword that a reading is.
    pub(crate) fn new(reading: Reading) -> Headword
        requires { reading.text ≢ [] }
        ensures { result ≡ reading }
    {
        Headword { reading }
    }

    /// The reading that it is.
    pub fn reading(&self) -> &Reading
        ensures value { result.now ≡ self.now }
        ensures some { self.now.text ≢ [] }
    {
        &self.reading
    }

    // The reading that it is, moved.
    pub(crate) fn into_reading(self) -> Reading
        ensures { result ≡ self }
    {
        self.reading
    }
}
