//! Tests of what is read from a connection and of what is sent: the requests of an SKK client with their replies, the
//! lines of a typist, and whole connections of both; and what a client tells of a server.
//!
//! They stand above those crates, so that none of these is proved once with its tests and once without. It has no
//! public item. What is tried stands in tables, each of them one text (`tables`), and one function compares
//! (`expected`), so that a row more costs no proof.
#![tactic(auto)]

#[cfg(test)]
mod callers;
#[cfg(test)]
mod clients;
#[cfg(test)]
mod connections;
#[cfg(test)]
mod expected;
#[cfg(test)]
mod passes;
#[cfg(test)]
mod pieces;
#[cfg(test)]
mod questions;
#[cfg(test)]
mod requests;
#[cfg(test)]
mod streams;
#[cfg(test)]
mod tables;
#[cfg(test)]
mod typists;
#[cfg(test)]
mod ways;
