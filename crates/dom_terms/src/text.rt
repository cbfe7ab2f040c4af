//! Texts: names, symbols and literals.
ghost use Rattle.std.specs.Prelude.{◌≡◌, ◌≤◌, ◌↔◌, [], ◌++◌, length, slice_get, option_copied, bytes_eq};
ghost use Rattle.std.specs.Prelude.{IsNone, IfOk, OnOk, OnErr, MatchBool};
ghost use Rattle.std.specs.Char.{encode_utf8};
ghost use Rattle.std.specs.Prelude.{IsUtf8};
ghost use Rattle.dom_terms.specs.Letters.{letters_bytes};

use crate::copied::Copied;
use crate::memory::OutOfMemory;
use crate::short::ShortText;
use std::alloc::Global;
use std::fmt;
use std::marker::Model;

// The characters of a text: those of a name or a symbol lie in the text itself.
#[derive(Drop)]
enum Letters {
    Short(ShortText),
    Long(Box<String>),
}

/// A text, seen as the list of its UTF-8 bytes.
#[derive(Drop)]
pub struct Text {
    letters: Letters,
    alloc: Global,
}

impl Model for Text {
    ghost use Rattle.std.specs.Prelude.{List, ℕ};

    ghost Value = { List ℕ };

    ghost use Rattle.dom_terms.specs.Letters.{letters_bytes};

    ghost view = { λ text. letters_bytes text.letters };
}

// The text of these characters and then more, on memory of its own.
fn long(alloc: Global, characters: &str, more: &str) -> Result<Letters, OutOfMemory>
    ensures { IfOk result (λ letters. letters_bytes letters ≡ characters.now ++ more.now) }
{
    let mut long = String::from_str(alloc, characters)?;
    long.push_str(more)?;
    Ok(Letters::Long(Box::new(alloc, long)?))
}

// Puts more characters at the end. Where memory is refused nothing is changed.
fn join(alloc: Global, letters: &mut Letters, more: &str) -> Result<(), OutOfMemory>
    ensures ok { OnOk result (letters_bytes letters.new ≡ letters_bytes letters.old ++ more.now) }
    ensures err { OnErr result (letters_bytes letters.new ≡ letters_bytes letters.old) }
{
    match letters {
        Letters::Long(long) => long.push_str(more)?,
        Letters::Short(short) => {
            *letters = match short.joined(more) {
                Some(joined) => Letters::Short(joined),
                None => long(alloc, short.as_str(), more)?,
            };
        }
    }
    Ok(())
}

// Puts an ASCII character at the end of a short text with room; else nothing is changed.
fn take_ascii(letters: &mut Letters, character: char) -> bool
    ensures { MatchBool result
        (letters_bytes letters.new ≡ letters_bytes letters.old ++ encode_utf8 character)
        (letters_bytes letters.new ≡ letters_bytes letters.old) }
{
    match letters {
        Letters::Short(short) => short.take_ascii(character),
        Letters::Long(_) => false,
    }
}

impl Text {
    /// The empty text. It takes memory only when it grows.
    pub fn new(alloc: Global) -> Text
        ensures { result ≡ [] }
    {
        Text {
            letters: Letters::Short(ShortText::new()),
            alloc,
        }
    }

    /// The text of these characters.
    pub fn from_str(alloc: Global, characters: &str) -> Result<Text, OutOfMemory>
        ensures { IfOk result (λ text. text ≡ characters.now) }
    {
        let letters = match ShortText::new().joined(characters) {
            Some(short) => Letters::Short(short),
            None => long(alloc, characters, "")?,
        };
        Ok(Text { letters, alloc })
    }

    /// Puts the bytes of a character at the end. Where memory is refused the text is unchanged.
    pub fn push(&mut self, character: char) -> Result<(), OutOfMemory>
        ensures ok { OnOk result (self.new ≡ self.old ++ encode_utf8 character) }
        ensures err { OnErr result (self.new ≡ self.old) }
    {
        if take_ascii(&mut self.letters, character) {
            return Ok(());
        }
        let mut buffer = [0; 4];
        join(
            self.alloc,
            &mut self.letters,
            character.encode_utf8(&mut buffer),
        )
    }

    /// Puts the characters of another text at the end. Where memory is refused the text is
    /// unchanged.
    pub fn append(&mut self, other: &Text) -> Result<(), OutOfMemory>
        ensures ok { OnOk result (self.new ≡ self.old ++ other.now) }
        ensures err { OnErr result (self.new ≡ self.old) }
    {
        join(self.alloc, &mut self.letters, other.as_str())
    }

    /// How many bytes the text has.
    pub fn len(&self) -> usize
        ensures { result ≡ length self.now }
    {
        self.as_str().len()
    }

    /// The byte at a place counted from 0: none exactly where the place isn't below the length.
    pub fn get(&self, place: usize) -> Option<&u8>
        ensures item { option_copied result ≡ slice_get self.now place }
        ensures absent { IsNone result ↔ (length self.now ≤ place) }
    {
        self.as_str().as_bytes().get(place)
    }

    /// Whether the texts have the same bytes.
    #[inline(always)]
    pub fn is_same(&self, other: &Text) -> bool
        ensures { result ≡ bytes_eq self.now other.now }
    {
        match (&self.letters, &other.letters) {
            (Letters::Short(left), Letters::Short(right)) => left.is_same(right),
            _ => self.as_str() == other.as_str(),
        }
    }

    /// Does nothing: it states that the bytes of a text are UTF-8.
    pub fn is_utf8(&self)
        ensures { ∥ IsUtf8 self.now ∥₁ }
    {
        let _characters = self.as_str();
    }

    /// The characters of the text.
    pub fn as_str(&self) -> &str
        ensures { result.now ≡ self.now }
    {
        match &self.letters {
            Letters::Short(short) => short.as_str(),
            Letters::Long(long) => long.as_str(),
        }
    }
}

impl Copied for Text {
    ghost use Rattle.std.specs.Prelude.{List, ℕ};

    ghost Seen = { List ℕ };

    ghost seen = { λ text. text };

    fn copy(&self, alloc: Global) -> Result<Text, OutOfMemory>
        ensures { IfOk result (λ copied. copied ≡ self.now) }
    {
        Text::from_str(alloc, self.as_str())
    }
}

impl fmt::Debug for Text {
    fn fmt<W: fmt::Write>(&self, f: &mut fmt::Formatter<W>) -> fmt::Result {
        f.debug_struct("Text")
            .field("characters", &self.as_str())
            .finish()
    }
}
