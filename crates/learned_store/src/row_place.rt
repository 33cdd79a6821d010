use skk_calls::RowKey;
use std::cmp::Ordering;
use std::hash::{Hash, Hasher};

// Where a row stands: in the book of a number, under a key. Places are ordered by the number, and then by the key.
#[derive(Debug, Drop)]
pub(crate) struct RowPlace {
    pub(crate) book: u16,
    pub(crate) key: RowKey,
}

impl PartialEq for RowPlace {
    ghost use Rattle.std.specs.Cmp.{eq_by_cmp_equiv, partial_equiv_from_equiv};
    ghost use Rattle.std.specs.Ordering.{eq_by_cmp};
    ghost use Rattle.learned_store.specs.RowPlaces.{place_cmp, place_total};

    ghost eq = { eq_by_cmp place_cmp };

    ghost laws = { partial_equiv_from_equiv (eq_by_cmp_equiv place_total) };

    fn eq(&self, other: &RowPlace) -> bool {
        self.cmp(other).is_eq()
    }
}

impl Eq for RowPlace {
    ghost use Rattle.std.specs.Cmp.{eq_by_cmp_equiv};
    ghost use Rattle.learned_store.specs.RowPlaces.{place_total};

    ghost laws = { eq_by_cmp_equiv place_total };
}

impl Hash for RowPlace {
    ghost use Rattle.learned_store.specs.RowPlaces.{place_alike, place_writes};

    ghost hash_input = { place_writes };

    ghost respects_eq = { place_alike };

    fn hash<H: Hasher>(&self, state: &mut H) {
        state.write_u16(self.book);
        self.key.reading().as_str().hash(state);
    }
}

impl PartialOrd for RowPlace {
    ghost use Rattle.std.specs.Prelude.{Some, refl};
    ghost use Rattle.std.specs.Cmp.{po};
    ghost use Rattle.learned_store.specs.RowPlaces.{place_cmp, place_total};

    ghost partial_cmp = { λ place other. Some (place_cmp place other) };

    ghost laws = { po place_total (λ place other. refl) };

    fn partial_cmp(&self, other: &RowPlace) -> Option<Ordering> {
        Some(self.cmp(other))
    }
}

impl Ord for RowPlace {
    ghost use Rattle.std.specs.Prelude.{refl};
    ghost use Rattle.learned_store.specs.RowPlaces.{place_cmp, place_total};

    ghost cmp = { place_cmp };

    ghost total = { place_total };

    ghost matches_partial_cmp = { λ place other. refl };

    ghost matches_eq = { λ place other. refl };

    fn cmp(&self, other: &RowPlace) -> Ordering {
        match self.book.cmp(&other.book) {
            Ordering::Equal => self.key.order(&other.key),
            order => order,
        }
    }
}
