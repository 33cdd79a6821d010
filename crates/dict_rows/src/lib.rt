//! One row of a learned dictionary after a change: what it is after a candidate is learnt or annotated and after a word
//! is purged, and how long its line is.
//!
//! It stands on `skk_text`, `skk_calls` and `dict_laws`. The rows that it is proved to give are defined in `skk_calls`
//! (`learnt`, `annotated`, `purged`), and so is the line whose length it gives.
#![tactic(auto)]

mod annotating;
mod copying;
mod learning;
mod learnt_blocks;
mod length;
mod purging;
mod row_or_empty;

pub use annotating::{annotate_row, annotated_row};
pub use learning::learn_row;
pub use length::line_length;
pub use purging::purge_row;
