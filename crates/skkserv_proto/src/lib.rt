//! The requests that a client of an SKK server sends, and their replies.
//!
//! It stands on `skk_text`, `exact_readers`, `cut_input`, `skk_calls` and `dict_format`. What bytes ask is said of
//! whole lists of bytes (`requests` in the specs), as a format that is made of smaller ones. A `Feeder` reads bytes
//! that come in any pieces, and has read the requests of all of them, however they were cut. `request_call` gives the
//! call on a dictionary that a request is, and `reply_bytes` what a client is sent for the reply.
#![tactic(auto)]

mod calling;
mod command;
mod feeder;
mod front;
mod laws;
mod next;
mod place;
mod reading;
mod reply;
mod request;

pub use calling::request_call;
pub use feeder::{FeedFault, Feeder};
pub use laws::requests_of_a_front;
pub use reply::reply_bytes;
pub use request::Request;
