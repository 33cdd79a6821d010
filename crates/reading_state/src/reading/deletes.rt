ghost use Rattle.std.specs.Prelude.{◌≡◌};
ghost use Rattle.reading_state.specs.Reading.{delete_step, okuri_without_last, without_empty_okuri, space_step};

use super::Reading;
use crate::reading_do::{ReadingDo, ReadingThen};
use skk_text::Notice;

impl Reading {
    // Takes the last pending letter, or else the okurigana's last kana, or else the reading's last character.
    #[tactic(auto, using(crate::proofs::Texts::shortened))]
    pub(crate) fn delete_last(&mut self) -> ReadingDo
        ensures { delete_step self.old ≡ record { reading = self.new; done = result } }
    {
        if !self.pending.is_empty() {
            self.pending.delete_last();
            self.give_up_empty_okuri();
            return ReadingDo::new(Notice::Empty, ReadingThen::Stay);
        }
        if self.has_kana() {
            self.delete_kana();
            return ReadingDo::new(Notice::Empty, ReadingThen::Stay);
        }
        if self.text.is_empty() {
            return ReadingDo::new(Notice::Empty, ReadingThen::Drop);
        }
        self.text.delete_last();
        self.okuri = None;
        ReadingDo::new(Notice::Empty, ReadingThen::Stay)
    }

    // Takes the last kana of the okurigana, and gives it up where it has none then.
    #[tactic(auto, using(crate::proofs::Texts::shortened))]
    fn delete_kana(&mut self)
        ensures { self.new ≡ without_empty_okuri (record self.old { okuri = okuri_without_last self.old.okuri }) }
    {
        if let Some(begun) = &mut self.okuri {
            begun.text.delete_last();
        }
        self.give_up_empty_okuri();
    }

    // Gives up an okurigana that has no kana, where nothing is pending.
    fn give_up_empty_okuri(&mut self)
        ensures { self.new ≡ without_empty_okuri self.old }
    {
        if self.lacks_kana() && self.pending.is_empty() {
            self.okuri = None;
        }
    }

    // What the space does behind its flush: it closes an empty reading, gives up an okurigana that has no kana,
    // or converts.
    pub(crate) fn close_or_convert(&mut self, notice: Notice) -> ReadingDo
        ensures { space_step (record { reading = self.old; notice = notice })
            ≡ record { reading = self.new; done = result } }
    {
        if self.text.is_empty() {
            return ReadingDo::new(notice, ReadingThen::Drop);
        }
        if self.lacks_kana() {
            self.okuri = None;
            return ReadingDo::new(notice, ReadingThen::Stay);
        }
        ReadingDo::new(notice, ReadingThen::Convert)
    }
}
