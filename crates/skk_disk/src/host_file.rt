ghost use Rattle.std.specs.Io.{ReadsAtMost};

use skk_text::Text;
use std::fs::{File, Files, OpenFile, OpenOptions};
use std::io::{self, ErrorKind};
use std::os::unix::fs::FileExt;
use std::path::Path;

// A file of the system by its name, which is opened at the first call on it. One that is absent is made by the first
// write, and by the first call where it is to be locked; until then it is empty.
#[derive(Drop)]
pub(crate) struct HostFile {
    name: Text,
    file: Option<File>,
    // Whether it is locked when it is opened.
    is_locked: bool,
    // Whether its folder was synced, by which the file has its name after a power cut too.
    is_named: bool,
}

impl HostFile {
    // Not opened yet. Takes no memory.
    pub(crate) fn new(name: Text) -> HostFile {
        HostFile {
            name,
            file: None,
            is_locked: false,
            is_named: false,
        }
    }

    // Not opened yet. From the first call on, that of another program on it fails that asks for the same, and so does
    // each call on this where another has it. Takes no memory.
    pub(crate) fn locked(name: Text) -> HostFile {
        HostFile {
            name,
            file: None,
            is_locked: true,
            is_named: false,
        }
    }

    pub(crate) fn len<R: Files<File = File>>(&mut self, files: &R) -> io::Result<u64> {
        match self.find(files)? {
            Some(file) => Ok(file.metadata()?.len()),
            None => Ok(0),
        }
    }

    pub(crate) fn read_at<R: Files<File = File>>(
        &mut self,
        files: &R,
        at: u64,
        into: &mut [u8],
    ) -> io::Result<usize>
        ensures bound { ReadsAtMost result into.new }
    {
        match self.find(files)? {
            Some(file) => file.read_at(into, at),
            None => Ok(0),
        }
    }

    // Bytes are written whole, or there is a fault.
    pub(crate) fn write_at<R: Files<File = File>>(
        &mut self,
        files: &R,
        at: u64,
        from: &[u8],
    ) -> io::Result<()> {
        let file = self.open(files)?;
        if from.is_empty() && file.metadata()?.len() < at {
            // The system takes an empty write for none.
            return file.set_len(at);
        }
        file.write_all_at(from, at)
    }

    // The system would fill a shorter file up.
    pub(crate) fn cut<R: Files<File = File>>(&mut self, files: &R, len: u64) -> io::Result<()> {
        match self.find(files)? {
            Some(file) if file.metadata()?.len() > len => file.set_len(len),
            _ => Ok(()),
        }
    }

    // The first sync is one of the folder too: the file may have been made now, or by a program that was stopped.
    pub(crate) fn sync<R: Files<File = File>>(&mut self, files: &R) -> io::Result<()> {
        let Some(file) = self.find(files)? else {
            return Ok(());
        };
        file.sync_data()?;
        if !self.is_named {
            sync_folder(files, self.name.as_str())?;
            self.is_named = true;
        }
        Ok(())
    }

    // The file, where there is one.
    fn find<R: Files<File = File>>(&mut self, files: &R) -> io::Result<Option<&File>> {
        if self.is_locked || self.file.is_some() {
            return Ok(Some(self.open(files)?));
        }
        match open_present(files, self.name.as_str()) {
            Ok(file) => Ok(Some(self.file.insert(file))),
            Err(error) if error.kind() == ErrorKind::NotFound => Ok(None),
            Err(error) => Err(error),
        }
    }

    fn open<R: Files<File = File>>(&mut self, files: &R) -> io::Result<&File> {
        let file = match self.file.take() {
            Some(file) => file,
            None => self.open_anew(files)?,
        };
        Ok(self.file.insert(file))
    }

    fn open_anew<R: Files<File = File>>(&self, files: &R) -> io::Result<File> {
        let file = open_or_make(files, self.name.as_str())?;
        if self.is_locked {
            file.try_lock()?;
        }
        Ok(file)
    }
}

fn open_present<R: Files<File = File>>(files: &R, name: &str) -> io::Result<File> {
    let mut how = OpenOptions::new();
    how.read(true).write(true);
    how.open(files, name)
}

fn open_or_make<R: Files<File = File>>(files: &R, name: &str) -> io::Result<File> {
    let mut how = OpenOptions::new();
    how.read(true).write(true).create(true);
    how.open(files, name)
}

// Syncs the folder of a file, where the system lets it.
fn sync_folder<R: Files>(files: &R, name: &str) -> io::Result<()> {
    match open_and_sync(files, folder_of(name)) {
        Err(error) if is_not_let(error.kind()) => Ok(()),
        synced => synced,
    }
}

fn open_and_sync<R: Files>(files: &R, folder: &str) -> io::Result<()> {
    File::open(files, folder)?.sync_all()
}

// The folder may be one that may not be read, or of a file system that syncs no folders.
fn is_not_let(kind: ErrorKind) -> bool {
    matches!(
        kind,
        ErrorKind::PermissionDenied | ErrorKind::InvalidInput | ErrorKind::Unsupported
    )
}

// The folder that a path names its file in.
fn folder_of(name: &str) -> &str {
    match Path::new(name).parent() {
        Some(folder) if !folder.as_str().is_empty() => folder.as_str(),
        _ => ".",
    }
}
