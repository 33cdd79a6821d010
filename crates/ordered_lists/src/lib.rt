//! Items in order by their keys, and what is looked for among them by halves: in a list that ascends, and in a list
//! that lies as it came, beside which the places of its items stand in order.
//!
//! It stands on `skk_text`. How an item is compared with what is looked for says the trait `Keyed`; which items are
//! found there is said by contracts over all items, whatever the search does.
#![tactic(auto)]

mod ascending;
mod bytes;
mod keyed;
mod places;

pub use ascending::{has_key_at, item_of, place_of};
pub use bytes::order_bytes;
pub use keyed::Keyed;
pub use places::Places;
