use command_line::{Command, words_of};
use skk_disk::Disk;
use skk_outside::{Gate, Listener, Shelf, Sink, Source};
use skk_text::Text;
use skk_top::{RunFault, command_or_end, run, run_alone, tell_end};
use std::alloc::Global;
use std::sync::Wait;
use std::thread::Threads;

// The status that no run ends with, for words that are for the other of the two.
const OTHER: u8 = 255;

/// The status of a run of words that are a command which waits for nobody, or are none. What is promised of a run is
/// long: it is met here alone, and callers know nothing of it.
pub fn status_of<H: Shelf, D: Disk + Drop, I: Source, O: Sink, E: Sink>(
    alloc: Global,
    texts: &[Text],
    shelf: &mut H,
    disk: D,
    input: &mut I,
    out: &mut O,
    err: &mut E,
) -> u8 {
    let Ok(words) = words_of(alloc, texts) else {
        return tell_end(Err(RunFault::Memory), err);
    };
    match command_or_end(alloc, &words, err) {
        Ok(Command::Alone(command)) => {
            run_alone(alloc, &command, shelf, disk, input, out, err).status
        }
        Ok(Command::Waiting(_)) => OTHER,
        Err(status) => status,
    }
}

/// The status of a run of words that are a command which may wait, or are none.
pub fn status_in_threads<
    H: Shelf,
    D: Disk + Drop + Send,
    I: Source,
    O: Sink,
    E: Sink,
    N: Listener<Link: Send + Drop>,
    G: Gate + Sync,
    R: Threads + Wait + Copy + Send + Sync,
>(
    rt: R,
    alloc: Global,
    texts: &[Text],
    shelf: &mut H,
    disk: D,
    input: &mut I,
    out: &mut O,
    err: &mut E,
    net: &mut N,
    gate: &G,
) -> u8 {
    let Ok(words) = words_of(alloc, texts) else {
        return tell_end(Err(RunFault::Memory), err);
    };
    match command_or_end(alloc, &words, err) {
        Ok(Command::Waiting(command)) => {
            run(rt, alloc, &command, shelf, disk, input, out, err, net, gate).status
        }
        Ok(Command::Alone(_)) => OTHER,
        Err(status) => status,
    }
}
