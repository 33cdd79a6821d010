ghost use Rattle.std.specs.Prelude.{◌≡◌, true, false, Some, IfOk};
ghost use Rattle.skk_calls.specs.Learning.{annotated};
ghost use Rattle.learned_store.specs.Payloads.{takes_note};
ghost use Rattle.learned_store.specs.Reading.{IsSpelled};

use crate::writing::part_byte;
use dict_format::print_line;
use dict_rows::{annotated_row, line_length};
use learn_index::KeptRow;
use skk_calls::{Cand, LINE_LIMIT, Row, RowKey};
use skk_text::{Copies, Memory};
use std::alloc::Global;
use std::marker::Model;

// A row behind a pointer, with its stamp apart, so that it gets another one where it lies.
#[derive(Debug, Drop)]
pub(crate) struct StampedRow {
    row: Box<Row>,
    stamp: u64,
}

impl Model for StampedRow {
    ghost use Rattle.skk_calls.specs.Rows.{Row};

    ghost Value = { Row };

    ghost view = { λ s. record s.row.value { stamp = s.stamp } };
}

impl StampedRow {
    // A row with its own stamp.
    pub(crate) fn new(alloc: Global, row: Row) -> Result<StampedRow, Memory>
        ensures { IfOk result (λ stamped. stamped ≡ row) }
    {
        let stamp = row.stamp();
        let row = Box::new(alloc, row)?;
        Ok(StampedRow { row, stamp })
    }

    // Whether these are the bytes of the row's part and line. Takes time in the line, and its memory.
    pub(crate) fn is_spelled(&self, alloc: Global, bytes: &[u8]) -> Result<bool, Memory>
        ensures { IfOk result (λ is. is ≡ true → IsSpelled self.now bytes.now) }
    {
        let Some((part, line)) = bytes.split_first() else {
            return Ok(false);
        };
        let row = &*self.row;
        if *part != part_byte(row.key().part()) {
            return Ok(false);
        }
        let own = print_line(alloc, row)?;
        Ok(own.as_str().as_bytes() == line)
    }

    // Gives the row another stamp.
    pub(crate) fn restamp(&mut self, stamp: u64)
        ensures { self.new ≡ record self.old { stamp = stamp } }
    {
        self.stamp = stamp;
    }

    // Gives a candidate of the row its note, and the row another stamp, where its line is not too long then. Takes time
    // in what the row holds.
    pub(crate) fn annotate(
        &mut self,
        alloc: Global,
        cand: &Cand,
        stamp: u64,
    ) -> Result<bool, Memory>
        ensures annotated { IfOk result (λ is. is ≡ true → (takes_note (Some self.old) cand.now stamp ≡ true)
            × (self.new ≡ annotated (Some self.old) self.old.key cand.now stamp)) }
        ensures none { IfOk result (λ is. is ≡ false → takes_note (Some self.old) cand.now stamp ≡ false) }
    {
        let row = annotated_row(alloc, Some(&*self.row), self.row.key(), cand, stamp)?;
        if line_length(&row) > LINE_LIMIT as u64 {
            return Ok(false);
        }
        *self.row = row;
        self.stamp = stamp;
        Ok(true)
    }

    // The row as an index keeps it: its candidates are moved, and what mostly is small is copied.
    pub(crate) fn into_kept(self, alloc: Global, key: RowKey) -> Result<KeptRow, Memory>
        requires { key ≡ self.key }
        ensures { IfOk result (λ kept. kept ≡ self) }
    {
        let StampedRow { row, stamp } = self;
        let row = Box::into_inner(row);
        let blocks = row.blocks().copy(alloc)?;
        let hides = row.hides().copy(alloc)?;
        let cands = row.into_cands();
        KeptRow::new(alloc, Row::new(key, cands, blocks, hides, stamp))
    }
}
