ghost use Rattle.std.specs.Prelude.{◌≡◌, ◌≤◌, ◌<◌, ℕ, length, take, Some, IfOk, OnOk, OnErr};
ghost use Rattle.std.specs.Io.{ReadsAtMost};
ghost use Rattle.skk_text.specs.Counts.{one_more};
ghost use Rattle.skk_disk.specs.Image.{empty_image};

use crate::disk::Disk;
use crate::host_file::HostFile;
use crate::which::Which;
use skk_outside::{Count, Failed};
use skk_text::Text;
use std::fs::{File, Files};
use std::io;

/// A disk of two files of the system, each opened at the first call on it. Where it is absent the first one is made
/// then, and the second one by the first write on it: until then it is empty. It tells nothing of what they hold: that
/// the system keeps what was synced is trusted. One disk has a first file at a time: it is locked when it is opened,
/// before anything is read of it, and up to the disk's end; each call on it fails where another disk has it, in this
/// program or in another.
#[derive(Drop)]
pub struct FileDisk<R: Files<File = File>> {
    files: R,
    a: HostFile,
    b: HostFile,
    faults: Count,
}

impl<R: Files<File = File>> FileDisk<R> {
    /// The two files of these names that the runtime opens. Takes no memory.
    pub fn new(files: R, a: Text, b: Text) -> FileDisk<R>
        ensures { ⟦<FileDisk<R> as Disk>⟧.faults result ≡ 0 }
    {
        FileDisk {
            files,
            a: HostFile::locked(a),
            b: HostFile::new(b),
            faults: Count::new(),
        }
    }
}

impl<R: Files<File = File>> Disk for FileDisk<R> {
    ghost tells = { ⊥ };

    ghost faults = { λ d. d.faults };

    ghost time = { λ d. 0 };

    ghost seen = { λ d. empty_image };

    ghost left_since = { λ d t image. ⊥ };

    ghost earlier = { λ d t u image le left. left };

    ghost reads_image = { λ d told. told };

    ghost apart = { λ d c e is_c is_e. is_c };

    ghost tells_images = { λ d t image left. left };

    fn len(&mut self, file: Which) -> Result<u64, Failed> {
        let file = file_of(file, &mut self.a, &mut self.b);
        counted(&mut self.faults, file.len(&self.files))
    }

    fn read_at(&mut self, file: Which, at: u64, into: &mut [u8]) -> Result<usize, Failed> {
        let file = file_of(file, &mut self.a, &mut self.b);
        match file.read_at(&self.files, at, into) {
            Ok(n) => Ok(n),
            Err(_) => Err(self.faults.fail()),
        }
    }

    fn write_at(&mut self, file: Which, at: u64, from: &[u8]) -> Result<(), Failed> {
        let file = file_of(file, &mut self.a, &mut self.b);
        counted(&mut self.faults, file.write_at(&self.files, at, from))
    }

    fn cut(&mut self, file: Which, len: u64) -> Result<(), Failed> {
        let file = file_of(file, &mut self.a, &mut self.b);
        counted(&mut self.faults, file.cut(&self.files, len))
    }

    fn sync(&mut self, file: Which) -> Result<(), Failed> {
        let file = file_of(file, &mut self.a, &mut self.b);
        counted(&mut self.faults, file.sync(&self.files))
    }
}

fn file_of<'a>(file: Which, a: &'a mut HostFile, b: &'a mut HostFile) -> &'a mut HostFile {
    match file {
        Which::A => a,
        Which::B => b,
    }
}

// The answer to a call of the system, which is counted where it is a fault.
fn counted<T>(faults: &mut Count, answer: io::Result<T>) -> Result<T, Failed>
    ensures ok { OnOk result (faults.new ≡ faults.old) }
    ensures err { OnErr result (faults.new ≡ one_more faults.old) }
    ensures counted { faults.old ≤ faults.new }
{
    match answer {
        Ok(value) => Ok(value),
        Err(_) => Err(faults.fail()),
    }
}
