use crate::cand::Cands;
use crate::okuri::Okuri;
use crate::row_key::RowKey;
use skk_text::{Copies, Memory, Sequence, Texts};
use std::alloc::Global;
use std::marker::Model;

/// The words that were chosen with one okurigana, the last chosen first: at least one, all different, and each of 1
/// to 4,095 bytes.
#[derive(Debug, Drop)]
pub struct Block {
    okuri: Okuri,
    words: Texts,
}

impl Model for Block {
    ghost use Rattle.std.specs.Prelude.{◌≡◌, true};
    ghost use Rattle.skk_calls.specs.Rows.{Block, is_block};

    ghost Value = { Block };

    ghost view = { λ b. record { okuri = b.okuri; words = b.words } };

    ghost invariant = { λ b. is_block (record { okuri = b.okuri; words = b.words }) ≡ true };
}

impl Block {
    ghost use Rattle.std.specs.Prelude.{◌≡◌, true};
    ghost use Rattle.skk_calls.specs.Rows.{is_block, same_text};

    /// The block of an okurigana with these words. Takes no memory and constant time.
    pub fn new(okuri: Okuri, words: Texts) -> Block
        requires { is_block (record { okuri = okuri; words = words }) ≡ true }
        ensures { result ≡ record { okuri = okuri; words = words } }
    {
        Block { okuri, words }
    }

    /// The okurigana.
    pub fn okuri(&self) -> &Okuri
        ensures value { result.now ≡ self.now.okuri }
        ensures valid { is_block self.now ≡ true }
    {
        &self.okuri
    }

    /// The words.
    pub fn words(&self) -> &Texts
        ensures value { result.now ≡ self.now.words }
        ensures valid { is_block self.now ≡ true }
    {
        &self.words
    }

    /// Whether it is the block of this okurigana.
    pub fn is_for(&self, okuri: &Okuri) -> bool
        ensures { result ≡ same_text self.now.okuri okuri.now }
    {
        self.okuri.text().as_str() == okuri.text().as_str()
    }
}

impl Copies for Block {
    fn copy(&self, alloc: Global) -> Result<Block, Memory> {
        Ok(Block {
            okuri: self.okuri.copy(alloc)?,
            words: self.words.copy(alloc)?,
        })
    }
}

/// Blocks in order.
pub type Blocks = Sequence<Block>;

/// What a book says of a key: its candidates, the last chosen first; its blocks by okurigana; the words that it hides
/// in the layers below; and its stamp, which is the book's count of changes at the row's last change.
///
/// The candidates' words differ, the blocks' okurigana differ, the hidden words differ, and a row without okurigana has
/// no blocks.
#[derive(Debug, Drop)]
pub struct Row {
    key: RowKey,
    cands: Cands,
    blocks: Blocks,
    hides: Texts,
    stamp: u64,
}

impl Model for Row {
    ghost use Rattle.std.specs.Prelude.{◌≡◌, true};
    ghost use Rattle.skk_calls.specs.Rows.{Row, is_row};

    ghost Value = { Row };

    ghost view = { λ r. record { key = r.key; cands = r.cands; blocks = r.blocks; hides = r.hides; stamp = r.stamp } };

    ghost invariant = { λ r.
        is_row (record { key = r.key; cands = r.cands; blocks = r.blocks; hides = r.hides; stamp = r.stamp }) ≡ true };
}

impl Row {
    ghost use Rattle.std.specs.Prelude.{◌≡◌, true};
    ghost use Rattle.skk_calls.specs.Rows.{is_row};

    /// The row with these fields. Takes no memory and constant time.
    pub fn new(key: RowKey, cands: Cands, blocks: Blocks, hides: Texts, stamp: u64) -> Row
        requires { is_row (record { key = key; cands = cands; blocks = blocks; hides = hides; stamp = stamp }) ≡ true }
        ensures { result ≡ record { key = key; cands = cands; blocks = blocks; hides = hides; stamp = stamp } }
    {
        Row {
            key,
            cands,
            blocks,
            hides,
            stamp,
        }
    }

    /// The key.
    pub fn key(&self) -> &RowKey
        ensures value { result.now ≡ self.now.key }
        ensures valid { is_row self.now ≡ true }
    {
        &self.key
    }

    /// The candidates.
    pub fn cands(&self) -> &Cands
        ensures value { result.now ≡ self.now.cands }
        ensures valid { is_row self.now ≡ true }
    {
        &self.cands
    }

    /// The candidates, moved out. Takes no memory.
    pub fn into_cands(self) -> Cands
        ensures value { result ≡ self.cands }
        ensures valid { is_row self ≡ true }
    {
        self.cands
    }

    /// The blocks.
    pub fn blocks(&self) -> &Blocks
        ensures value { result.now ≡ self.now.blocks }
        ensures valid { is_row self.now ≡ true }
    {
        &self.blocks
    }

    /// The hidden words.
    pub fn hides(&self) -> &Texts
        ensures value { result.now ≡ self.now.hides }
        ensures valid { is_row self.now ≡ true }
    {
        &self.hides
    }

    /// The stamp.
    pub fn stamp(&self) -> u64
        ensures value { result ≡ self.now.stamp }
        ensures valid { is_row self.now ≡ true }
    {
        self.stamp
    }
}

impl Copies for Row {
    fn copy(&self, alloc: Global) -> Result<Row, Memory> {
        Ok(Row {
            key: self.key.copy(alloc)?,
            cands: self.cands.copy(alloc)?,
            blocks: self.blocks.copy(alloc)?,
            hides: self.hides.copy(alloc)?,
            stamp: self.stamp,
        })
    }
}

/// Rows in order.
pub type Rows = Sequence<Row>;
