//! The top calls: all that the program does, over what it is handed of the outside.
//!
//! It stands on the crates below that a command is made of. `command_or_end` reads the words by `command_line`: they
//! are a command, or it tells on standard error why the run ends, and answers the status. A command waits for nobody,
//! or it may wait, and so one of two top calls runs it: `run_alone` runs in one thread, and `run` starts threads and
//! waits for them. Either one runs the command, tells on standard error why a run was not done, and answers the status,
//! the chronicle of its calls and the disk. Each command has a module of its own and one relation
//! that says what a run of it leaves. In one thread, the calls are those of one caller, which notes them; in threads,
//! each session or connection has a caller of its own, and the calls of all are one history. At each moment of a run a
//! stop leaves a learned dictionary that is opened as a state that a part of these calls may leave.
#![tactic(auto)]

mod alone;
mod ask_command;
mod caller_each;
mod check_command;
mod checking;
mod dictionary;
mod dump_command;
mod expr_command;
mod import_command;
mod laws;
mod load_command;
mod load_each;
mod load_opening;
mod manner;
mod one_caller;
mod opening;
mod rule_file;
mod run_file;
mod serve_command;
mod serving;
mod share_command;
mod summary;
mod type_command;
mod typed_tasks;
mod typing;
mod waiting;
mod weaving;
mod words;

pub use alone::run_alone;
pub use laws::typists_of_a_load_are_apart;
pub use run_endings::{Finish, Flaw, Run, RunFault, RunFile, end_run, tell_end};
pub use waiting::run;
pub use words::command_or_end;
