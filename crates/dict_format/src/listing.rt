ghost use Rattle.std.specs.Prelude.{◌≡◌, OnOk};
ghost use Rattle.dict_format.specs.FileBuilding.{KnowsKeys, listed_with};

use crate::file::{BadLine, BadLines, Listed};
use crate::line::read;
use crate::readings::Readings;
use crate::reason::{LineFault, LineReason};
use skk_calls::{Book, Part, Row, Rows};
use skk_text::Memory;
use std::alloc::Global;
use std::marker::Model;

/// What is listed of a file so far, and the readings of its rows.
#[derive(Drop)]
pub struct Listing {
    rows: Rows,
    bad: BadLines,
    readings: Readings,
}

impl Model for Listing {
    ghost use Rattle.dict_format.specs.FileBuilding.{KnowsKeys};
    ghost use Rattle.dict_format.specs.declared.file.Listed.{Listed};

    ghost Value = { Listed };

    ghost view = { λ l. record { book = l.rows; bad = l.bad } };

    ghost invariant = { λ l. KnowsKeys l.rows l.readings };
}

impl Listing {
    ghost use Rattle.std.specs.Prelude.{◌≡◌, ◌∷◌, ◌++◌, [], IfOk};
    ghost use Rattle.std.specs.Str.{chars};
    ghost use Rattle.dict_format.specs.FileBuilding.{listed_with, refused_with};
    ghost use Rattle.dict_format.specs.FileLines.{TakeAll, none_listed};

    /// Nothing.
    pub fn new(alloc: Global) -> Listing
        ensures { result ≡ none_listed }
    {
        Listing {
            rows: Rows::new(alloc),
            bad: BadLines::new(alloc),
            readings: Readings::new(alloc),
        }
    }

    /// What is listed.
    pub fn into_listed(self) -> Listed
        ensures { result ≡ self }
    {
        Listed {
            book: Book::new(self.rows),
            bad: self.bad,
        }
    }

    /// Takes an entry: its row, or its line as a bad one.
    pub fn take_entry(
        self,
        alloc: Global,
        number: usize,
        part: Part,
        line: &str,
    ) -> Result<Listing, Memory>
        ensures { IfOk result (TakeAll self (record { number = number; part = part; text = chars line.now } ∷ [])) }
    {
        match read(alloc, part, line) {
            Ok(row) => self.take_row(alloc, number, row),
            Err(LineFault::Reason(reason)) => self.refuse(number, reason),
            Err(LineFault::Memory) => Err(Memory),
        }
    }

    // Takes the row of a line, or the line as a bad one where its key came before.
    fn take_row(self, alloc: Global, number: usize, row: Row) -> Result<Listing, Memory>
        ensures { IfOk result (λ after. after ≡ listed_with self number row) }
    {
        let Listing {
            mut rows,
            mut bad,
            mut readings,
        } = self;
        put_row(alloc, &mut rows, &mut bad, &mut readings, number, row)?;
        Ok(Listing {
            rows,
            bad,
            readings,
        })
    }

    // Takes a line as a bad one.
    fn refuse(self, number: usize, reason: LineReason) -> Result<Listing, Memory>
        ensures { IfOk result (λ after. after ≡ refused_with self number reason) }
    {
        let mut listing = self;
        listing.bad.push(BadLine {
            line: number,
            reason,
        })?;
        Ok(listing)
    }
}

// Puts the row of a line behind others, or the line behind other bad ones where its key is known.
fn put_row(
    alloc: Global,
    rows: &mut Rows,
    bad: &mut BadLines,
    readings: &mut Readings,
    number: usize,
    row: Row,
) -> Result<(), Memory>
    ensures keys { OnOk result (KnowsKeys rows.old readings.old → KnowsKeys rows.new readings.new) }
    ensures listed { OnOk result (KnowsKeys rows.old readings.old → record { book = rows.new; bad = bad.new }
        ≡ listed_with (record { book = rows.old; bad = bad.old }) number row) }
{
    if readings.add(alloc, row.key())? {
        rows.push(row)
    } else {
        bad.push(BadLine {
            line: number,
            reason: LineReason::Twice,
        })
    }
}
