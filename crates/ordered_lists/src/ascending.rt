ghost use Rattle.std.specs.Prelude.{◌≡◌, ◌≤◌, true, length, slice_get};
ghost use Rattle.std.specs.Option.{option_and_then, option_copied};
ghost use Rattle.ordered_lists.specs.Orders.{ascend, item_of, passes, IsPlace};
ghost use Rattle.ordered_lists.specs.PlaceLaws.{if_has};

use crate::keyed::Keyed;

/// The place of a key among items that ascend: those before it have lesser keys, and those from it on have not. Takes a
/// logarithm in the number of items, and no memory.
pub fn place_of<T: Keyed<S>, S>(items: &[T], sought: &S) -> usize
    requires { ascend T.key T.keys items.now ≡ true }
    ensures bound { result ≤ length items.now }
    ensures place { IsPlace T.key T.keys (T.sought_key sought.now) items.now result }
{
    items.partition_point(|item| item.compare(sought).is_lt())
}

/// The item of a key among items that ascend. Takes a logarithm in their number, and no memory.
pub fn item_of<'a, T: Keyed<S>, S>(items: &'a [T], sought: &S) -> Option<&'a T>
    requires { ascend T.key T.keys items.now ≡ true }
    ensures { option_copied result ≡ item_of T.key T.keys (T.sought_key sought.now) items.now }
{
    where_same(item_at(items, place_of(items, sought)), sought)
}

/// Whether the item of a key stands at a place.
pub fn has_key_at<T: Keyed<S>, S>(items: &[T], place: usize, sought: &S) -> bool
    ensures { result ≡ passes (λ item. T.keys.same (T.key item) (T.sought_key sought.now)) (slice_get items.now place) }
{
    match items.get(place) {
        Some(item) => item.compare(sought).is_eq(),
        None => false,
    }
}

// The item at a place.
fn item_at<T>(items: &[T], place: usize) -> Option<&T>
    ensures { option_copied result ≡ slice_get items.now place }
{
    items.get(place)
}

// An item, where it has the key.
pub(crate) fn where_same<'a, T: Keyed<S>, S>(item: Option<&'a T>, sought: &S) -> Option<&'a T>
    ensures { option_copied result
        ≡ option_and_then (if_has T.key T.keys (T.sought_key sought.now)) (option_copied item.entry) }
{
    let item = item?;
    if item.compare(sought).is_eq() {
        Some(item)
    } else {
        None
    }
}
