ghost use Rattle.std.specs.Prelude.{◌≡◌, ◌+◌, true, length, map, min, nat_le, IfOk};
ghost use Rattle.std.specs.List.{flat_map, list_all};
ghost use Rattle.skk_text.specs.Counts.{last_count};
ghost use Rattle.learn_index.specs.Groups.{group_limit};
ghost use Rattle.batch_store.specs.Learnings.{learnings_at};
ghost use Rattle.batch_store.specs.Levels.{has_rank};

use crate::writing::fits;
use skk_calls::{Call, Calls, Row};
use skk_text::{Copies, Memory};
use std::alloc::Global;

// The most calls of a group. A book has a stamp for each of so many before a group is begun.
pub(crate) const GROUP_LIMIT: usize = 256;

// Whether a book with this count has stamps for the learnings of all these rows, and a group's more.
pub(crate) fn has_stamps_for(count: u64, levels: &[Vec<&Row>]) -> bool
    ensures { result ≡ nat_le (count + length (flat_map (λ level. level.items) levels.now) + group_limit) last_count }
{
    fits(count, learning_count(levels), u64::MAX - GROUP_LIMIT as u64)
}

// How many rows all these levels have, as far as a number can tell.
fn learning_count(levels: &[Vec<&Row>]) -> u64
    ensures { result ≡ min (length (flat_map (λ level. level.items) levels.now)) last_count }
{
    let mut count: u64 = 0;
    for level in levels {
        count = count.saturating_add(level.len() as u64);
    }
    count
}

// The learnings into a book of the candidates of a rank of rows that have one.
pub(crate) fn learnings_at(
    alloc: Global,
    book: u16,
    rows: &[&Row],
    rank: usize,
) -> Result<Calls, Memory>
    requires { list_all (λ row. has_rank rank row.now) rows.now ≡ true }
    ensures { IfOk result (λ calls. calls ≡ learnings_at book (map (λ row. row.now) rows.now) rank) }
{
    let mut calls = Calls::new(alloc);
    for row in rows {
        calls.push(Call::Learn {
            book,
            key: row.key().copy(alloc)?,
            okuri: None,
            cand: row.cands().at(rank).copy(alloc)?,
        })?;
    }
    Ok(calls)
}
