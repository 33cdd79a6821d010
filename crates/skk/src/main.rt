//! The program `skk`: it makes the real things and calls the top call.
#![tactic(auto)]

ghost use Rattle.command_line.specs.Ranges.{HasNumbersInRange};

use command_line::{Command, words_of};
use skk_disk::{Disk, FileDisk, MemDisk};
use skk_outside::{HostListener, HostShelf, Open, ReaderSource, WriterSink};
use skk_text::{Memory, Text};
use skk_top::{RunFault, command_or_end, run, run_alone, tell_end};
use std::fs::{self, File};
use std::io::ErrorKind;
use std::process::ExitCode;
use std::sync::Wait;
use std::thread::Threads;
use std::{env, io};

fn main(rt: HostRuntime) -> ExitCode {
    let _kept = closed_places(&rt);
    match texts(&rt) {
        Ok(texts) => run_texts(&rt, rt, &texts),
        Err(fault) if fault.kind() == ErrorKind::OutOfMemory => end(&rt, RunFault::Memory),
        // A word that is not UTF-8 is in no command.
        Err(_) => end(&rt, RunFault::Words),
    }
}

// Takes the places of the standard streams that were closed when the program began. The system gives a place that is
// free to the next file that is opened: without this, what is printed would be written over a learned file. The root
// folder can be neither read nor written, so that a stream at its place fails as a closed one does.
fn closed_places(rt: &HostRuntime) -> [Option<File>; 3] {
    [root_folder(rt), root_folder(rt), root_folder(rt)]
}

// The root folder, opened.
fn root_folder(rt: &HostRuntime) -> Option<File> {
    fs::open(rt, "/").ok()
}

// Ends with a fault before anything was run.
fn end(rt: &HostRuntime, fault: RunFault) -> ExitCode {
    let mut err = WriterSink::new(rt.stderr());
    ExitCode::from(tell_end(Err(fault), &mut err))
}

// The words behind the program's name.
fn texts(rt: &HostRuntime) -> io::Result<Vec<Text>> {
    let mut texts = Vec::new(rt.alloc());
    for word in env::args(rt)?.skip(1) {
        texts.push(Text::of(word))?;
    }
    Ok(texts)
}

// Runs the command that the words are.
fn run_texts<R: Threads + Wait + Copy + Send + Sync>(
    host: &HostRuntime,
    rt: R,
    texts: &[Text],
) -> ExitCode {
    let alloc = host.alloc();
    let Ok(words) = words_of(alloc, texts) else {
        return end(host, RunFault::Memory);
    };
    match command_or_end(alloc, &words, &mut WriterSink::new(host.stderr())) {
        Ok(command) => run_command(host, rt, &command),
        Err(status) => ExitCode::from(status),
    }
}

// Runs a command over the learned file that it names, or over none.
fn run_command<R: Threads + Wait + Copy + Send + Sync>(
    host: &HostRuntime,
    rt: R,
    command: &Command,
) -> ExitCode
    requires { HasNumbersInRange command.now }
{
    let alloc = host.alloc();
    let Some(word) = command.learned() else {
        return run_over(host, rt, command, MemDisk::new(alloc, Vec::new(alloc)));
    };
    let Ok(name) = word.to_text(alloc) else {
        return end(host, RunFault::Memory);
    };
    match second_name(host, &name) {
        Ok(second) => run_over(host, rt, command, FileDisk::new(host, name, second)),
        Err(Memory) => end(host, RunFault::Memory),
    }
}

// The name of the second file beside a learned file.
fn second_name(rt: &HostRuntime, name: &Text) -> Result<Text, Memory> {
    let mut second = Text::new(rt.alloc());
    second.push_str(name.as_str())?;
    second.push_str(".2")?;
    Ok(second)
}

// Runs a command over a disk, the system's files and the standard streams.
fn run_over<D: Disk + Drop + Send, R: Threads + Wait + Copy + Send + Sync>(
    host: &HostRuntime,
    rt: R,
    command: &Command,
    disk: D,
) -> ExitCode
    requires { HasNumbersInRange command.now }
{
    let alloc = host.alloc();
    let mut shelf = HostShelf::new(alloc, host);
    let mut input = ReaderSource::new(host.stdin());
    let mut out = WriterSink::new(host.stdout());
    let mut err = WriterSink::new(host.stderr());
    let status = match command {
        Command::Alone(command) => {
            run_alone(
                alloc, command, &mut shelf, disk, &mut input, &mut out, &mut err,
            )
            .status
        }
        Command::Waiting(command) => {
            let mut net = HostListener::new(host);
            run(
                rt, alloc, command, &mut shelf, disk, &mut input, &mut out, &mut err, &mut net,
                &Open,
            )
            .status
        }
    };
    ExitCode::from(status)
}
