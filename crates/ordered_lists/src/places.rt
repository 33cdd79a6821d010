ghost use Rattle.std.specs.Prelude.{◌≡◌, ◌≤◌, ◌∷◌, ◌++◌, [], true, not, None, List, length, slice_get};
ghost use Rattle.std.specs.Prelude.{OnOk, OnErr, IfOk};
ghost use Rattle.std.specs.Option.{option_and_then, option_copied};
ghost use Rattle.std.specs.Ordering.{is_lt};
ghost use Rattle.ordered_lists.specs.Orders.{before, differ, item_above, item_of, option_less, passes, sort_by, HasAt};
ghost use Rattle.ordered_lists.specs.Orders.{IsIndex, IsPlace};

use crate::ascending::where_same;
use crate::keyed::Keyed;
use skk_text::Memory;
use std::alloc::Global;
use std::cmp::Ordering;
use std::marker::Model;

/// Places of items of a list, which lies as it came: made to be an index of these items, by which they are found by
/// halves. A place takes 8 bytes.
#[derive(Debug, Drop)]
pub struct Places {
    places: Vec<usize>,
}

impl Model for Places {
    ghost use Rattle.std.specs.Prelude.{ℕ, List};

    ghost Value = { List ℕ };

    ghost view = { λ p. p.places.items };
}

impl Places {
    /// No places. Takes no memory: they keep the allocator for what is pushed later.
    pub fn new(alloc: Global) -> Places
        ensures { result ≡ [] }
    {
        Places {
            places: Vec::new(alloc),
        }
    }

    /// The index of all items of a list. Takes one pass over them where they are in order, else time in their number
    /// with one logarithm in it.
    pub fn of<T: Keyed<T>>(alloc: Global, items: &[T]) -> Result<Places, Memory>
        requires own { (item : T) → T.sought_key item ≡ T.key item }
        requires differ { differ T.key T.keys items.now ≡ true }
        ensures { IfOk result (λ places. IsIndex T.key T.keys items.now places items.now) }
    {
        let mut places = all_places(alloc, items)?;
        places.sort(items);
        Ok(places)
    }

    /// Adds a place at the end.
    pub fn push(&mut self, place: usize) -> Result<(), Memory>
        ensures ok { OnOk result (self.new ≡ self.old ++ place ∷ []) }
        ensures err { OnErr result (self.new ≡ self.old) }
    {
        self.places.push(place)?;
        Ok(())
    }

    /// Puts the places in order by the keys of the items there. Takes one pass over them where they are in order, else
    /// time in their number with one logarithm in it, and no memory.
    pub fn sort<T: Keyed<T>>(&mut self, items: &[T])
        requires { (item : T) → T.sought_key item ≡ T.key item }
        ensures { (those : List T) → HasAt items.now self.old those → differ T.key T.keys those ≡ true
            → IsIndex T.key T.keys items.now self.new those }
    {
        self.places
            .sort_unstable_by(|place, other| order_at(items, *place, *other));
    }

    /// Adds the place behind all items to an index, for an item that comes there and has a key that is looked for,
    /// which none of those has. Takes a logarithm in the number of places, and the move of those behind it.
    pub fn add<T: Keyed<S>, S>(&mut self, items: &[T], sought: &S) -> Result<(), Memory>
        ensures ok { OnOk result ((those : List T) (item : T) → T.key item ≡ T.sought_key sought.now
            → item_of T.key T.keys (T.key item) those ≡ None → IsIndex T.key T.keys items.now self.old those
            → IsIndex T.key T.keys (items.now ++ item ∷ []) self.new (those ++ item ∷ [])) }
        ensures err { OnErr result (self.new ≡ self.old) }
    {
        let index = place_of(items, &self.places, sought);
        self.places.insert(index, items.len())?;
        Ok(())
    }

    /// The item of a key among those of an index. Takes a logarithm in their number, and no memory.
    pub fn item_of<'a, T: Keyed<S>, S>(&self, items: &'a [T], sought: &S) -> Option<&'a T>
        ensures { (those : List T) → IsIndex T.key T.keys items.now self.now those
            → option_copied result ≡ item_of T.key T.keys (T.sought_key sought.now) those }
    {
        let index = place_of(items, &self.places, sought);
        where_same(item_at(items, &self.places, index), sought)
    }

    /// The item of a key among those of an index, and the first in order whose key is greater, as `item_of` and
    /// `item_above` give them, by one search.
    pub fn item_and_above<'a, T: Keyed<S>, S>(
        &self,
        items: &'a [T],
        sought: &S,
    ) -> (Option<&'a T>, Option<&'a T>)
        ensures item { (those : List T) → IsIndex T.key T.keys items.now self.now those
            → option_copied result.0 ≡ item_of T.key T.keys (T.sought_key sought.now) those }
        ensures above { (those : List T) → IsIndex T.key T.keys items.now self.now those → option_copied result.1
            ≡ item_above T.key T.keys (T.sought_key sought.now) (sort_by (before T.key T.keys) those) }
    {
        let index = place_of(items, &self.places, sought);
        let item = where_same(item_at(items, &self.places, index), sought);
        let behind = index + usize::from(item.is_some());
        (item, item_at(items, &self.places, behind))
    }

    /// The first in order of the items of an index whose key is greater. Takes a logarithm in their number, and no
    /// memory.
    pub fn item_above<'a, T: Keyed<S>, S>(&self, items: &'a [T], sought: &S) -> Option<&'a T>
        ensures { (those : List T) → IsIndex T.key T.keys items.now self.now those → option_copied result
            ≡ item_above T.key T.keys (T.sought_key sought.now) (sort_by (before T.key T.keys) those) }
    {
        let index = self
            .places
            .partition_point(|place| is_low_at(items, *place, sought));
        item_at(items, &self.places, index)
    }
}

// The places of all items of a list.
fn all_places<T>(alloc: Global, items: &[T]) -> Result<Places, Memory>
    ensures { IfOk result (λ places. HasAt items.now places items.now) }
{
    let mut places = Places::new(alloc);
    for place in 0..items.len() {
        places.push(place)?;
    }
    Ok(places)
}

// How many places stand before the first whose item has a key that is not less.
fn place_of<T: Keyed<S>, S>(items: &[T], places: &[usize], sought: &S) -> usize
    ensures bound { result ≤ length places.now }
    ensures place { (those : List T) → IsIndex T.key T.keys items.now places.now those
        → IsPlace T.key T.keys (T.sought_key sought.now) (sort_by (before T.key T.keys) those) result }
{
    places.partition_point(|place| is_less_at(items, *place, sought))
}

// Which of the items at two places is the lesser by its key. A place without an item stands first.
fn order_at<T: Keyed<T>>(items: &[T], place: usize, other: usize) -> Ordering
    requires { (item : T) → T.sought_key item ≡ T.key item }
    ensures { is_lt result ≡ option_less (before T.key T.keys) (slice_get items.now place) (slice_get items.now other) }
{
    match (items.get(place), items.get(other)) {
        (Some(item), Some(other)) => item.compare(other),
        (None, Some(_)) => Ordering::Less,
        (None, None) => Ordering::Equal,
        (Some(_), None) => Ordering::Greater,
    }
}

// Whether at a place an item stands whose key is less.
fn is_less_at<T: Keyed<S>, S>(items: &[T], place: usize, sought: &S) -> bool
    ensures { result ≡ passes (λ item. T.keys.less (T.key item) (T.sought_key sought.now)) (slice_get items.now place) }
{
    match items.get(place) {
        Some(item) => item.compare(sought).is_lt(),
        None => false,
    }
}

// Whether at a place an item stands whose key is not greater.
fn is_low_at<T: Keyed<S>, S>(items: &[T], place: usize, sought: &S) -> bool
    ensures { result ≡ passes (λ item. not (T.keys.less (T.sought_key sought.now) (T.key item)))
        (slice_get items.now place) }
{
    match items.get(place) {
        Some(item) => item.compare(sought).is_le(),
        None => false,
    }
}

// The item at the place that stands at this index among places.
fn item_at<'a, T>(items: &'a [T], places: &[usize], index: usize) -> Option<&'a T>
    ensures { option_copied result ≡ option_and_then (slice_get items.now) (slice_get places.now index) }
{
    let place = places.get(index)?;
    items.get(*place)
}
