//! Short texts, which lie in the value itself and take no memory.
ghost use Rattle.std.specs.Prelude.{◌≡◌, [], ◌++◌, IfSome, MatchBool, bytes_eq};
ghost use Rattle.std.specs.Char.{encode_utf8};

use crate::same::same_bytes;
use std::marker::Model;
use std::str;

/// The most bytes of a short text: what fits beside its length and the tag of a text in two words.
const MOST_SHORT: usize = 14;

/// A text of few bytes, seen as the list of its UTF-8 bytes.
#[derive(Drop)]
pub(crate) struct ShortText {
    bytes: [u8; MOST_SHORT],
    len: u8,
}

impl Model for ShortText {
    ghost use Rattle.std.specs.Prelude.{◌≤◌, List, ℕ, take, IsUtf8};

    ghost Value = { List ℕ };

    ghost view = { λ short. take short.len short.bytes };

    ghost invariant = { λ short. (short.len ≤ 14) × ∥ IsUtf8 (take short.len short.bytes) ∥₁ };
}

impl ShortText {
    /// The empty text.
    pub(crate) fn new() -> ShortText
        ensures { result ≡ [] }
    {
        ShortText {
            bytes: [0; MOST_SHORT],
            len: 0,
        }
    }

    /// The text with more characters at its end, if it is short still.
    pub(crate) fn joined(&self, more: &str) -> Option<ShortText>
        ensures { IfSome result (λ short. short ≡ self.now ++ more.now) }
    {
        let len = self.len as usize;
        if more.len() > MOST_SHORT - len {
            return None;
        }
        let whole = len + more.len();
        let mut bytes = self.bytes;
        bytes[len..whole].copy_from_slice(more.as_bytes());
        Some(ShortText {
            bytes,
            len: whole as u8,
        })
    }

    /// Puts a character at the end, if it is ASCII and there is room; else nothing is changed.
    pub(crate) fn take_ascii(&mut self, character: char) -> bool
        ensures { MatchBool result (self.new ≡ self.old ++ encode_utf8 character)
            (self.new ≡ self.old) }
    {
        let len = self.len as usize;
        if len == MOST_SHORT || !character.is_ascii() {
            return false;
        }
        self.bytes[len] = character as u8;
        self.len += 1;
        true
    }

    /// Whether the texts have the same bytes.
    #[inline(always)]
    pub(crate) fn is_same(&self, other: &ShortText) -> bool
        ensures { result ≡ bytes_eq self.now other.now }
    {
        self.len == other.len && same_bytes(self.as_str().as_bytes(), other.as_str().as_bytes())
    }

    /// The characters.
    pub(crate) fn as_str(&self) -> &str
        ensures { result.now ≡ self.now }
    {
        unsafe { str::from_utf8_unchecked(&self.bytes[..self.len as usize]) }
    }
}
