ghost use Rattle.std.specs.Prelude.{◌≡◌, IfOk};
ghost use Rattle.std.specs.Option.{option_copied};
ghost use Rattle.learned_store.specs.KeptLookUps.{is_of, same_okuri};

use skk_calls::{FoundCands, Okuri, Part};
use skk_text::{Copies, Memory, copy_of};
use std::alloc::Global;

// What was found by a look-up of a reading: in this part, of this typist and with this okurigana.
#[derive(Drop)]
pub(crate) struct KeptAnswer {
    pub(crate) part: Part,
    pub(crate) who: u16,
    pub(crate) okuri: Option<Okuri>,
    pub(crate) cands: FoundCands,
}

impl KeptAnswer {
    // The answer of a look-up, with copies of its okurigana and of its candidates.
    pub(crate) fn copied(
        alloc: Global,
        part: Part,
        who: u16,
        okuri: Option<&Okuri>,
        cands: &FoundCands,
    ) -> Result<KeptAnswer, Memory>
        ensures { IfOk result (λ kept. kept
            ≡ record { part = part; who = who; okuri = option_copied okuri.entry; cands = cands.now }) }
    {
        Ok(KeptAnswer {
            part,
            who,
            okuri: copy_of(alloc, okuri)?,
            cands: cands.copy(alloc)?,
        })
    }

    // Whether it is that of a look-up of its reading.
    pub(crate) fn is_of(&self, part: Part, who: u16, okuri: Option<&Okuri>) -> bool
        ensures { result ≡ is_of part who (option_copied okuri.entry) self.now }
    {
        self.part == part && self.who == who && are_same(self.okuri.as_ref(), okuri)
    }
}

// Whether two okurigana are the same, where there are any.
fn are_same(okuri: Option<&Okuri>, other: Option<&Okuri>) -> bool
    ensures { result ≡ same_okuri (option_copied okuri.entry) (option_copied other.entry) }
{
    match (okuri, other) {
        (None, None) => true,
        (Some(okuri), Some(other)) => okuri.text().as_str() == other.text().as_str(),
        _ => false,
    }
}
