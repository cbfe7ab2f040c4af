// The characters of a text that is read, whichever way they are held.
ghost use Rattle.std.specs.Prelude.{◌≡◌, ◌<◌, ◌≤◌, ℕ, length, get_or, MatchOption};

/// A character of a text that is read: a character, or a byte of a text that is all ASCII.
pub trait Letter: Copy + Drop {
    // the code of the character
    ghost code: { Self → ℕ };

    /// The character.
    fn character(self) -> char
        ensures { result ≡ code self };
}

impl Letter for char {
    ghost code = { λ character. character };

    #[inline(always)]
    fn character(self) -> char {
        self
    }
}

impl Letter for u8 {
    ghost code = { λ byte. byte };

    #[inline(always)]
    fn character(self) -> char {
        self as char
    }
}

/// The entry of the table at the code of the character, and none where it has none.
#[inline(always)]
pub fn looked_up<T: Copy + Drop>(table: &[T], character: char) -> Option<T>
    ensures { MatchOption result (length table.now ≤ character)
        (λ entry. (character < length table.now)
        × (entry ≡ get_or table.now character entry)) }
{
    match table.get(character as usize) {
        Some(entry) => Some(*entry),
        None => None,
    }
}
