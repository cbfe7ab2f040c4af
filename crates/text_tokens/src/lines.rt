// The lines of a text, and their characters.
ghost use Rattle.std.specs.Prelude.{◌≡◌, ◌<◌, length, OnOk};
ghost use Rattle.std.specs.Str.{chars, IsCharBoundary};
ghost use Rattle.text_tokens.specs.Lines.{IsLineLength};

use dom_terms::OutOfMemory;

/// How many bytes the first line of the text has, with the newline that ends it.
pub fn line_length(text: &str) -> usize
    requires { 0 < length text.now }
    ensures cut { IsCharBoundary text.now result }
    ensures some { 0 < result }
    ensures is { IsLineLength text.now result }
{
    match text.find('\n') {
        Some(place) => place + 1,
        None => text.len(),
    }
}

/// Puts the characters of the text in place of those in the list.
pub fn decode(text: &str, characters: &mut Vec<char>) -> Result<(), OutOfMemory>
    ensures { OnOk result (characters.new.items ≡ chars text.now) }
{
    characters.clear();
    characters.extend(text.chars())?;
    Ok(())
}
