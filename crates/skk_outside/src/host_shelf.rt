ghost use Rattle.std.specs.Prelude.{◌≡◌, ◌≤◌, None, OnOk, OnErr};
ghost use Rattle.std.specs.Io.{ReadsAtMost};
ghost use Rattle.skk_text.specs.Counts.{one_more};
ghost use Rattle.skk_outside.specs.Faults.{Rose};
ghost use Rattle.skk_outside.specs.Shelves.{ReadsFrom};

use crate::count::Count;
use crate::outside::Failed;
use crate::shelf::Shelf;
use skk_text::Text;
use std::alloc::Global;
use std::fs::Files;
use std::io::{Read, Seek, SeekFrom};
use std::{fs, io};

/// The shelf of the files of the system, each named by its path. It tells nothing of what they hold.
#[derive(Drop)]
pub struct HostShelf<R: Files> {
    alloc: Global,
    files: R,
    reading: Option<OpenedFile<R::File>>,
    faults: Count,
}

// A file that was opened, with its name and the place that it is read on from.
#[derive(Drop)]
struct OpenedFile<F> {
    name: String,
    place: u64,
    file: F,
}

impl<R: Files> HostShelf<R> {
    /// A shelf of the files that the runtime opens. Takes no memory: the shelf keeps the allocator for
    /// the name of the file that it reads.
    pub fn new(alloc: Global, files: R) -> HostShelf<R>
        ensures { ⟦<HostShelf<R> as Shelf>⟧.faults result ≡ 0 }
    {
        HostShelf {
            alloc,
            files,
            reading: None,
            faults: Count::new(),
        }
    }

    // Reads on where the last read of that file ended, or from the place in the file opened anew.
    fn read_on(&mut self, name: &Text, from: u64, into: &mut [u8]) -> io::Result<usize>
        ensures bound { ReadsAtMost result into.new }
        ensures faults { self.new.faults ≡ self.old.faults }
    {
        let mut open = match self.reading.take() {
            Some(open) if open.is_at(name, from) => open,
            _ => self.open(name, from)?,
        };
        let n = open.file.read(into)?;
        // A file that has ended is closed, so that one that took its name meanwhile is found.
        if n > 0 {
            open.place = from.saturating_add(n as u64);
            self.reading = Some(open);
        }
        Ok(n)
    }

    // Opens a file to be read from a place on.
    fn open(&self, name: &Text, from: u64) -> io::Result<OpenedFile<R::File>> {
        let mut file = fs::open(&self.files, name.as_str())?;
        // A pipe, in which no place can be sought, is still read from its head.
        if from > 0 {
            file.seek(SeekFrom::Start(from))?;
        }
        Ok(OpenedFile {
            name: String::from_str(self.alloc, name.as_str())?,
            place: from,
            file,
        })
    }
}

impl<F> OpenedFile<F> {
    // Whether it is the file of that name, read on from that place.
    fn is_at(&self, name: &Text, place: u64) -> bool {
        self.place == place && self.name.as_str() == name.as_str()
    }
}

impl<R: Files> Shelf for HostShelf<R> {
    ghost faults = { λ s. s.faults };

    ghost file = { λ s name. None };

    /// A name that has no file, that of a directory, and a file that may not be read are faults, and so
    /// is want of memory for the name. A read that goes well leaves the count of faults, and one that
    /// fails raises it by one. A file that is read on from where the last read ended stays open for it.
    fn read(&mut self, name: &Text, from: u64, into: &mut [u8]) -> Result<usize, Failed>
        ensures bound { ReadsAtMost result into.new }
        ensures bytes { ReadsFrom (⟦<HostShelf<R> as Shelf>⟧.file self.old name.now) from result into.new }
        ensures kept { ⟦<HostShelf<R> as Shelf>⟧.file self.new ≡ ⟦<HostShelf<R> as Shelf>⟧.file self.old }
        ensures failed { OnErr result
            (Rose (⟦<HostShelf<R> as Shelf>⟧.faults self.old) (⟦<HostShelf<R> as Shelf>⟧.faults self.new)) }
        ensures counted { ⟦<HostShelf<R> as Shelf>⟧.faults self.old ≤ ⟦<HostShelf<R> as Shelf>⟧.faults self.new }
        ensures no_fault { OnOk result
            (⟦<HostShelf<R> as Shelf>⟧.faults self.new ≡ ⟦<HostShelf<R> as Shelf>⟧.faults self.old) }
        ensures one_fault { OnErr result
            (⟦<HostShelf<R> as Shelf>⟧.faults self.new ≡ one_more (⟦<HostShelf<R> as Shelf>⟧.faults self.old)) }
    {
        match self.read_on(name, from, into) {
            Ok(n) => Ok(n),
            Err(_) => Err(self.faults.fail()),
        }
    }
}
