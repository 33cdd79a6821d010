ghost use Rattle.std.specs.Prelude.{◌≡◌, ◌++◌, [], IfOk, OnOk, OnErr, string_bytes};
ghost use Rattle.std.specs.Str.{IsUtf8, chars};
ghost use Rattle.skk_text.specs.Text.{without_last};

use crate::memory::Memory;
use arrayvec::ArrayString;
use std::alloc::Global;
use std::marker::Model;

// How many bytes lie in a text itself: eight kana or kanji, which most readings and words do not pass.
const SHORT: usize = 24;

/// The bytes of a text in UTF-8: few lie in the value itself, more on the heap. What went to the heap stays there.
#[derive(Debug)]
pub(crate) struct Content {
    held: Held,
}

// One call, so that letting a text go is one step for whoever does it, wherever its bytes lie.
impl Drop for Content {
    fn drop(self) {
        let Content { held } = self;
        drop(held);
    }
}

// Where the bytes lie.
#[derive(Debug, Drop)]
enum Held {
    // With the allocator for what is put in later.
    Short(ArrayString<SHORT>, Global),
    Long(String),
}

impl Model for Content {
    ghost use Rattle.std.specs.Prelude.{List, ℕ};
    ghost use Rattle.skk_text.specs.Contents.{IsHeldUtf8, bytes_held};

    ghost Value = { List ℕ };

    ghost view = { λ c. bytes_held c.held };

    ghost invariant = { λ c. ∥ IsHeldUtf8 c.held ∥₁ };
}

impl Content {
    /// No bytes. Takes no memory.
    pub fn new(alloc: Global) -> Content
        ensures { result ≡ [] }
    {
        Content {
            held: Held::Short(ArrayString::new(), alloc),
        }
    }

    /// Those of a string, which stay where they lie. Takes no memory.
    pub fn of(text: String) -> Content
        ensures { result ≡ string_bytes text }
    {
        Content {
            held: Held::Long(text),
        }
    }

    /// Those of a string, copied. Takes memory only where they are many.
    pub fn copied(alloc: Global, text: &str) -> Result<Content, Memory>
        ensures { IfOk result (λ content. content ≡ text.now) }
    {
        let held = match ArrayString::from(text) {
            Ok(short) => Held::Short(short, alloc),
            Err(_) => Held::Long(String::from_str(alloc, text)?),
        };
        Ok(Content { held })
    }

    /// The bytes as a string.
    pub fn as_str(&self) -> &str
        ensures { result.now ≡ self.now }
    {
        match &self.held {
            Held::Short(text, _) => text.as_str(),
            Held::Long(text) => text.as_str(),
        }
    }

    /// The same bytes once more.
    pub fn copy(&self, alloc: Global) -> Result<Content, Memory>
        ensures { IfOk result (λ copy. copy ≡ self.now) }
    {
        let held = match &self.held {
            Held::Short(text, _) => Held::Short(*text, alloc),
            Held::Long(text) => Held::Long(String::from_str(alloc, text.as_str())?),
        };
        Ok(Content { held })
    }

    /// Takes the last character off, where there is one. Takes constant time and no memory.
    pub fn pop(&mut self)
        ensures { chars self.new ≡ without_last (chars self.old) }
    {
        match &mut self.held {
            Held::Short(text, _) => pop_short(text),
            Held::Long(text) => pop_long(text),
        }
    }

    /// Adds bytes at the end.
    pub fn push_str(&mut self, added: &str) -> Result<(), Memory>
        ensures utf8 { IsUtf8 self.old }
        ensures ok { OnOk result (self.new ≡ self.old ++ added.now) }
        ensures err { OnErr result (self.new ≡ self.old) }
    {
        match &mut self.held {
            Held::Long(text) => {
                text.push_str(added)?;
                Ok(())
            }
            Held::Short(text, alloc) => {
                if text.try_push_str(added).is_err() {
                    let long = joined(*alloc, text.as_str(), added)?;
                    self.held = Held::Long(long);
                }
                Ok(())
            }
        }
    }
}

// Takes the last character of a short text off, where it has one.
fn pop_short(text: &mut ArrayString<SHORT>)
    ensures utf8 { IsUtf8 text.new.bytes }
    ensures last { IsUtf8 text.old.bytes → chars text.new.bytes ≡ without_last (chars text.old.bytes) }
{
    text.pop();
    // What is left is a string.
    let _left = text.as_str();
}

// Takes the last character of a string off, where it has one.
fn pop_long(text: &mut String)
    ensures { chars (string_bytes text.new) ≡ without_last (chars (string_bytes text.old)) }
{
    text.pop();
}

// Two strings as one.
fn joined(alloc: Global, first: &str, second: &str) -> Result<String, Memory>
    ensures { IfOk result (λ text. string_bytes text ≡ first.now ++ second.now) }
{
    let mut text = String::from_str(alloc, first)?;
    text.push_str(second)?;
    Ok(text)
}
