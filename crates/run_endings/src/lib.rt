//! How a run of the program ends: the faults for which it is not done, the status and the line of each, and the pages
//! that it writes until then.
//!
//! It stands on `skk_text`, `skk_outside`, `skk_calls`, `key_scripts`, `skk_journal` and `skkserv_client`, whose faults
//! it has words for.
//! A `RunFault` is why a run was not done; `end_by` says how a run ends by what its calls came to, `end_run` tells the
//! line on standard error and answers the status, and `print_full` writes a page once it is full. It promises that the
//! status and the line are those of the fault, and that what was written of a page is a prefix of it where a write
//! failed.
#![tactic(auto)]

mod fault;
mod finish;
mod page;
mod reply_flaw;
mod run_file;

pub use fault::{RunFault, end_run, tell_end, write_numbered};
pub use finish::{Finish, Run, end_by, end_wanting};
pub use page::{
    print, print_full, print_numbered, print_text, print_through, write, write_through,
};
pub use reply_flaw::ReplyFlaw;
pub use run_file::{Flaw, RunFile};
