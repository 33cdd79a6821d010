ghost use Rattle.std.specs.Prelude.{◌≡◌, ℕ, List, [], ◌∷◌, ◌++◌, ◌-◌, length, take, string_bytes, encode_utf8_all};
ghost use Rattle.std.specs.Prelude.{IfOk, OnOk, OnErr};
ghost use Rattle.std.specs.Fmt.{decimal};
ghost use Rattle.std.specs.Str.{chars};
ghost use Rattle.skk_text.specs.Lists.{is_empty};
ghost use Rattle.skk_text.specs.Text.{byte_len, last_chars, without_last};

use crate::content::Content;
use crate::copies::Copies;
use crate::memory::Memory;
use crate::sequence::Sequence;
use itoa::Buffer;
use std::alloc::Global;
use std::marker::Model;

/// A text: contracts see the list of its characters. Up to 24 bytes lie in the text itself, more on the heap.
#[derive(Debug, Drop)]
pub struct Text {
    content: Content,
}

impl Model for Text {
    ghost use Rattle.std.specs.Prelude.{List, ℕ};
    ghost use Rattle.std.specs.Str.{chars};

    ghost Value = { List ℕ };

    ghost view = { λ t. chars t.content };
}

impl Text {
    /// The empty text. Takes no memory: the text keeps the allocator for what is put in later.
    pub fn new(alloc: Global) -> Text
        ensures { result ≡ [] }
    {
        Text {
            content: Content::new(alloc),
        }
    }

    /// The text of a string, which is moved. Takes no memory.
    pub fn of(text: String) -> Text
        ensures { result ≡ chars (string_bytes text) }
    {
        Text {
            content: Content::of(text),
        }
    }

    /// The text of a string, copied. Takes memory only where it is long.
    pub fn from_str(alloc: Global, text: &str) -> Result<Text, Memory>
        ensures { IfOk result (λ copy. copy ≡ chars text.now) }
    {
        let content = Content::copied(alloc, text)?;
        Ok(Text { content })
    }

    /// The text's content.
    pub fn as_str(&self) -> &str
        ensures value { result.now ≡ encode_utf8_all self.now }
        ensures characters { chars result.now ≡ self.now }
    {
        self.content.as_str()
    }

    /// The text as a string, copied.
    pub fn to_string(&self, alloc: Global) -> Result<String, Memory>
        ensures { IfOk result (λ copy. chars (string_bytes copy) ≡ self.now) }
    {
        Ok(String::from_str(alloc, self.as_str())?)
    }

    /// How many bytes the text has in UTF-8. Takes constant time.
    pub fn byte_len(&self) -> usize
        ensures { result ≡ byte_len self.now }
    {
        self.as_str().len()
    }

    /// Whether the text has no character.
    pub fn is_empty(&self) -> bool
        ensures { result ≡ is_empty self.now }
    {
        self.byte_len() == 0
    }

    /// Adds a character at the end.
    pub fn push(&mut self, c: char) -> Result<(), Memory>
        ensures ok { OnOk result (self.new ≡ self.old ++ c ∷ []) }
        ensures err { OnErr result (self.new ≡ self.old) }
    {
        let mut buffer = [0; 4];
        self.push_str(c.encode_utf8(&mut buffer))
    }

    /// Adds a string at the end.
    pub fn push_str(&mut self, added: &str) -> Result<(), Memory>
        ensures ok { OnOk result (self.new ≡ self.old ++ chars added.now) }
        ensures err { OnErr result (self.new ≡ self.old) }
    {
        self.content.push_str(added)
    }

    /// Adds a number in decimal at the end.
    pub fn push_number(&mut self, number: u64) -> Result<(), Memory>
        ensures ok { OnOk result (self.new ≡ self.old ++ decimal number) }
        ensures err { OnErr result (self.new ≡ self.old) }
    {
        self.push_str(Buffer::new().format(number))
    }

    /// Takes the last character off, where there is one. Takes constant time and no memory.
    pub fn delete_last(&mut self)
        ensures { self.new ≡ without_last self.old }
    {
        self.content.pop();
    }

    /// The last characters of the text, at most `count`. Takes time in `count`, not in the
    /// length of the text.
    pub fn last(&self, count: usize) -> &str
        ensures value { result.now ≡ encode_utf8_all (last_chars count self.now) }
        ensures characters { chars result.now ≡ last_chars count self.now }
    {
        last_of(self.as_str(), count)
    }
}

impl Copies for Text {
    fn copy(&self, alloc: Global) -> Result<Text, Memory> {
        let content = self.content.copy(alloc)?;
        Ok(Text { content })
    }
}

// The last characters of a string, at most `count`.
fn last_of(text: &str, count: usize) -> &str
    ensures value { result.now ≡ encode_utf8_all (last_chars count (chars text.now)) }
    ensures characters { chars result.now ≡ last_chars count (chars text.now) }
{
    let mut prefix = text;
    for _ in 0..count {
        prefix = without_last(prefix);
    }
    &text[prefix.len()..]
}

// The string without its last character, where it has one.
fn without_last(text: &str) -> &str
    ensures { chars result.now ≡ without_last (chars text.now) }
{
    let mut characters = text.chars();
    match characters.next_back() {
        Some(_) => characters.as_str(),
        None => text,
    }
}

/// Texts in order.
pub type Texts = Sequence<Text>;
