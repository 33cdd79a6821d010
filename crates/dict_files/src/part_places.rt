use crate::marked_places::MarkedPlaces;
use crate::place::Place;
use skk_calls::Part;
use skk_text::Memory;
use std::alloc::Global;

/// The places of the entries of each part, as they come.
#[derive(Drop)]
pub struct PartPlaces {
    pub nasi: Vec<Place>,
    pub ari: Vec<Place>,
}

impl PartPlaces {
    ghost use Rattle.std.specs.Prelude.{◌≡◌, ◌∷◌, ◌++◌, [], IfOk, if◌then◌else◌};
    ghost use Rattle.skk_calls.specs.Rows.{same_part};
    ghost use Rattle.skk_calls.specs.declared.part.Part.{Part as PartValue};
    ghost use Rattle.dict_files.specs.PlacesOfParts.{places_in};

    /// No places. Takes no memory.
    pub fn new(alloc: Global) -> PartPlaces
        ensures { (part : PartValue) → places_in result part ≡ [] }
    {
        PartPlaces {
            nasi: Vec::new(alloc),
            ari: Vec::new(alloc),
        }
    }

    /// The places with one more of a part.
    pub fn with(self, part: Part, place: Place) -> Result<PartPlaces, Memory>
        ensures { IfOk result (λ after. (other : PartValue) → places_in after other
            ≡ places_in self other ++ (if same_part part other then place ∷ [] else [])) }
    {
        let mut places = self;
        match part {
            Part::Nasi => places.nasi.push(place)?,
            Part::Ari => places.ari.push(place)?,
        }
        Ok(places)
    }
}

/// The places of the entries of each part in order by their readings, with their marks.
#[derive(Drop)]
pub struct MarkedParts {
    pub nasi: MarkedPlaces,
    pub ari: MarkedPlaces,
}

impl MarkedParts {
    ghost use Rattle.std.specs.Prelude.{◌≡◌};
    ghost use Rattle.dict_files.specs.PlacesOfParts.{marked_in};

    /// Those of a part.
    pub fn of(&self, part: Part) -> &MarkedPlaces
        ensures { result.now ≡ marked_in self.now part }
    {
        match part {
            Part::Nasi => &self.nasi,
            Part::Ari => &self.ari,
        }
    }
}
