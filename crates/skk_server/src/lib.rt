//! Connections, each served from its first byte to its close.
//!
//! It stands on `skk_text`, `exact_readers`, `skk_outside`, `skk_calls`, `romaji_rules`, `skkserv_proto` and
//! `typist_line`. A connection whose first byte is `T` is a typist's, any other that of a client of an SKK server. What
//! its bytes ask and what is sent for them is one interaction (`Means` in the specs), and `serve_connection` is proved
//! to go along it over any link, however the link cuts the bytes, and to tell at its end how far it went. `serve_all`
//! serves the connections of a listener, many at once, each by a caller of its own, and is proved to give each link
//! back in the order in which they came, with what `serve_connection` says of it (`ServesAll` in the specs).
#![tactic(auto)]

mod client;
mod connection;
mod end;
mod ended;
mod hall;
mod joining;
mod laws;
mod leaving;
mod page;
mod promised;
mod responder;
mod served;
mod served_end;
mod server;
mod service;
mod serving;
mod serving_all;
mod start;
mod taking;
mod talk;
mod work;

pub use end::End;
pub use served::Served;
pub use served_end::ServedEnd;
pub use serving::serve_connection;
pub use serving_all::serve_all;
