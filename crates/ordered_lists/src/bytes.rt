ghost use Rattle.std.specs.Prelude.{◌≡◌};
ghost use Rattle.std.specs.Ordering.{is_lt, is_eq, is_gt};
ghost use Rattle.std.specs.Str.{bytes_eq};
ghost use Rattle.ordered_lists.specs.KeyOrders.{bytes_less};

use std::cmp::Ordering;

/// How bytes stand to others in the order of their values. Takes time in the length of the shorter ones.
pub fn order_bytes(bytes: &[u8], other: &[u8]) -> Ordering
    ensures less { is_lt result ≡ bytes_less bytes.now other.now }
    ensures same { is_eq result ≡ bytes_eq bytes.now other.now }
    ensures greater { is_gt result ≡ bytes_less other.now bytes.now }
{
    bytes.cmp(other)
}
