use std::cmp::Ordering;

/// Items that stand in order by their keys, and are looked for by what stands for a key.
pub trait Keyed<S> {
    ghost use Rattle.std.specs.Prelude.{◌≡◌};
    ghost use Rattle.std.specs.Ordering.{is_lt, is_eq};
    ghost use Rattle.ordered_lists.specs.Orders.{Order};

    /// What keys are.
    ghost Key: { Type 0 };

    /// Their order.
    ghost keys: { Order Key };

    /// The key of an item.
    ghost key: { Self → Key };

    /// The key that is looked for.
    ghost sought_key: { S → Key };

    /// How the key of the item stands to the one that is looked for. Takes no memory.
    fn compare(&self, sought: &S) -> Ordering
        ensures less { is_lt result ≡ keys.less (key self.now) (sought_key sought.now) }
        ensures same { is_eq result ≡ keys.same (key self.now) (sought_key sought.now) };
}
