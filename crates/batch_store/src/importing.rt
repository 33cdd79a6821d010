ghost use Rattle.std.specs.Prelude.{◌≡◌, ◌+◌, ◌≤◌, ◌∷◌, [], true, length, map};
ghost use Rattle.std.specs.List.{list_all};
ghost use Rattle.skk_text.specs.Counts.{last_count};
ghost use Rattle.skk_calls.specs.Rows.{keys_differ};
ghost use Rattle.skk_calls.specs.States.{count_of};
ghost use Rattle.learn_index.specs.Groups.{IsGroup, group_limit};
ghost use Rattle.batch_store.specs.Imports.{LeavesImported};
ghost use Rattle.batch_store.specs.Learnings.{in_groups, learnings_at};
ghost use Rattle.batch_store.specs.Levels.{has_rank};
ghost use Rattle.batch_store.specs.Pieces.{CommitsGroups, HasStampsFor};

use crate::batch::Batch;
use crate::group_fault::GroupFault;
use crate::import_fault::ImportFault;
use crate::learnings::{GROUP_LIMIT, has_stamps_for, learnings_at};
use crate::levels::levels_of;
use dict_format::printing_order_moves_rows;
use skk_calls::{Book, Call, Calls, Row};
use skk_disk::Disk;
use std::alloc::Global;

/// Learns the candidates of a dictionary into a book, in groups, until one is refused: from the last candidates of the
/// longest rows on up to the first ones, so that each row that was new shows them in the order of the file. A group of
/// several learnings for which there is no room is served one by one. Takes time and memory in the number of the
/// candidates, and four calls of the disk for up to 256 of them, where the learned file has room.
pub fn import<D: Disk>(
    alloc: Global,
    batch: &mut Batch<D>,
    number: u16,
    book: &Book,
) -> Result<(), ImportFault>
    ensures { LeavesImported D.Disk batch.old batch.new number book.now result }
{
    printing_order_moves_rows();
    let mut levels = levels_of(alloc, book)?;
    if !has_stamps_for(batch.count(number), &levels) {
        return Err(ImportFault::StampsEnd);
    }
    while let Some(level) = levels.pop() {
        import_level(alloc, batch, number, &level, levels.len())?;
    }
    Ok(())
}

// Learns the candidates of a rank of rows that have one.
fn import_level<D: Disk>(
    alloc: Global,
    batch: &mut Batch<D>,
    number: u16,
    rows: &[&Row],
    rank: usize,
) -> Result<(), GroupFault>
    requires ranked { list_all (λ row. has_rank rank row.now) rows.now ≡ true }
    requires differ { keys_differ (map (λ row. row.now) rows.now) ≡ true }
    requires stamps { count_of batch.old.store.state number + length rows.now + group_limit ≤ last_count }
    ensures { CommitsGroups D.Disk batch.old batch.new
        (in_groups (learnings_at number (map (λ row. row.now) rows.now) rank)) result }
{
    let mut place = 0;
    while place < rows.len() {
        let end = place + (rows.len() - place).min(GROUP_LIMIT);
        let calls = learnings_at(alloc, number, &rows[place..end], rank)?;
        commit_group(alloc, batch, calls)?;
        place = end;
    }
    Ok(())
}

// Serves a group of learnings, or each for itself where there is no room for all of them.
fn commit_group<D: Disk>(
    alloc: Global,
    batch: &mut Batch<D>,
    calls: Calls,
) -> Result<(), GroupFault>
    requires group { IsGroup batch.old.store.state calls }
    requires stamps { HasStampsFor batch.old.store.state calls }
    ensures { CommitsGroups D.Disk batch.old batch.new (calls ∷ []) result }
{
    match batch.commit(alloc, &calls) {
        Ok(_) => Ok(()),
        Err(GroupFault::Memory) => Err(GroupFault::Memory),
        Err(GroupFault::Disk) => Err(GroupFault::Disk),
        Err(GroupFault::Full { end, need, limit }) => {
            if calls.len() > 1 {
                commit_each(alloc, batch, calls)
            } else {
                Err(GroupFault::Full { end, need, limit })
            }
        }
    }
}

// Serves learnings each for itself.
fn commit_each<D: Disk>(alloc: Global, batch: &mut Batch<D>, calls: Calls) -> Result<(), GroupFault>
    requires group { IsGroup batch.old.store.state calls }
    requires stamps { HasStampsFor batch.old.store.state calls }
    ensures { CommitsGroups D.Disk batch.old batch.new (map (λ call. call ∷ []) calls) result }
{
    for call in calls.into_vec() {
        commit_alone(alloc, batch, call)?;
    }
    Ok(())
}

// Serves a learning for itself.
fn commit_alone<D: Disk>(alloc: Global, batch: &mut Batch<D>, call: Call) -> Result<(), GroupFault>
    requires { IsGroup batch.old.store.state (call ∷ []) }
    ensures { CommitsGroups D.Disk batch.old batch.new ((call ∷ []) ∷ []) result }
{
    let mut calls = Calls::new(alloc);
    calls.push(call)?;
    batch.commit(alloc, &calls)?;
    Ok(())
}
