ghost use Rattle.std.specs.Prelude.{◌≡◌, ◌↔◌, ◌⊎◌, ◌≤◌, length, drop, min, find, true, option_copied, IsErr, IfOk};
ghost use Rattle.std.specs.Prelude.{IfSome, OnOk, OnErr};
ghost use Rattle.std.specs.Io.{ReadsAtMost};
ghost use Rattle.std.specs.Str.{bytes_eq};
ghost use Rattle.skk_outside.specs.Faults.{Rose};
ghost use Rattle.skk_outside.specs.Memory.{no_call_yet, after_success, after_failure, FailsNext, names_differ};
ghost use Rattle.skk_outside.specs.Memory.{file_named};
ghost use Rattle.skk_outside.specs.Shelves.{ReadsFrom};

use crate::calls::Calls;
use crate::copying::copy_what_fits;
use crate::outside::Failed;
use crate::shelf::Shelf;
use skk_text::{Bytes, Text};
use std::marker::Model;

/// A shelf in memory: files with their names, and a list of calls that are to fail.
#[derive(Debug, Drop)]
pub struct MemShelf {
    files: Vec<(Text, Bytes)>,
    calls: Calls,
}

impl Model for MemShelf {
    ghost use Rattle.skk_outside.specs.Memory.{ShelfState};

    ghost Value = { ShelfState };

    ghost view = { λ s. record { files = s.files.items; count = s.calls } };
}

impl MemShelf {
    /// A shelf of these files, whose reads with these numbers fail: they count from 1. Takes no memory.
    pub fn new(files: Vec<(Text, Bytes)>, fails: Vec<u64>) -> MemShelf
        requires { names_differ files.items ≡ true }
        ensures files { result.files ≡ files.items }
        ensures count { result.count ≡ no_call_yet fails.items }
    {
        MemShelf {
            files,
            calls: Calls::new(fails),
        }
    }
}

impl Shelf for MemShelf {
    ghost faults = { λ s. s.count.faults };

    ghost file = { λ s. file_named s.files };

    /// Reads as many bytes as there is room for. A name that no file has is a fault too. Goes over the
    /// names once.
    fn read(&mut self, name: &Text, from: u64, into: &mut [u8]) -> Result<usize, Failed>
        ensures bound { ReadsAtMost result into.new }
        ensures bytes { ReadsFrom (file_named self.old.files name.now) from result into.new }
        ensures kept { file_named self.new.files ≡ file_named self.old.files }
        ensures failed { OnErr result (Rose self.old.count.faults self.new.count.faults) }
        ensures counted { self.old.count.faults ≤ self.new.count.faults }

        // As many bytes as there is room for, of those from the place on.
        ensures many { IfOk result (λ n. IfSome (file_named self.old.files name.now)
            (λ file. n ≡ min (length into.old) (length (drop from file)))) }
        ensures fails { IsErr result ↔ (FailsNext self.old.count ⊎ (file_named self.old.files name.now ≡ None)) }
        ensures ok { OnOk result (self.new.count ≡ after_success self.old.count) }
        ensures err { OnErr result (self.new.count ≡ after_failure self.old.count) }
    {
        self.calls.next()?;
        let Some((_, file)) = find_named(&self.files, name) else {
            return Err(self.calls.fail());
        };
        Ok(copy_what_fits(rest_of_file(file.as_slice(), from), into))
    }
}

// The file of a name, with the name.
fn find_named<'a>(files: &'a [(Text, Bytes)], name: &Text) -> Option<&'a (Text, Bytes)>
    ensures { option_copied result ≡ find (λ file. bytes_eq file.0 name.now) files.now }
{
    files.iter().find(|file| is_same_text(&file.0, name))
}

// Whether two texts have the same characters.
fn is_same_text(text: &Text, other: &Text) -> bool
    ensures { result ≡ bytes_eq text.now other.now }
{
    text.as_str() == other.as_str()
}

// What a file has from a place on.
fn rest_of_file(file: &[u8], from: u64) -> &[u8]
    ensures { result.now ≡ drop from file.now }
{
    let place = from.min(file.len() as u64);
    &file[place as usize..]
}
