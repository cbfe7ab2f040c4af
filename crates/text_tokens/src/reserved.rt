// The words that are no names.
ghost use Rattle.std.specs.Prelude.{◌≡◌, ℕ, List, ◌∷◌, bytes_eq};
ghost use Rattle.std.specs.List.{list_any};
ghost use Rattle.model_text.specs.Lexemes.{is_reserved};
ghost use Rattle.model_text.specs.Versions.{insert_word};

use dom_terms::same_bytes;

/// Whether the texts are the same. Most that are compared differ in length or in their first byte.
#[inline(always)]
pub fn is_same(own: &str, wanted: &str) -> bool
    ensures { result ≡ bytes_eq own.now wanted.now }
{
    own.len() == wanted.len() && same_bytes(own.as_bytes(), wanted.as_bytes())
}

/// The words that decide whether a word with this first byte is reserved.
#[inline(always)]
fn words_from(first: u8) -> &'static [&'static str]
    ensures { (rest : List ℕ)
        → list_any (λ w. bytes_eq (first ∷ rest) w.now) result.now ≡ is_reserved (first ∷ rest) }
{
    match first {
        b'a' => &["auto", "at", "and", "appendChild"],
        b'b' => &["body", "by"],
        b'c' => &["call", "createNode", "childNodes"],
        b'd' => &["domlogic", "do"],
        b'e' => &["ensures", "end", "entails", "else", "exists"],
        b'f' => &["false", "forall"],
        b'i' => &["if", "is", "item"],
        b'l' => &["logic", "local", "len"],
        b'n' => &["not", "null", "nolist", "no", "nodeName"],
        b'o' => &["or"],
        b'p' => &["proc", "proof", "pre", "post", "parentNode"],
        b'r' => &["returns", "requires", "removeChild"],
        b's' => &["sort", "step", "skip"],
        b't' => &["true"],
        b'w' => &["with", "while"],
        b'y' => &["yes"],
        _ => &[],
    }
}

/// Whether the word is one of these.
#[inline(always)]
fn is_among(words: &[&str], word: &str) -> bool
    ensures { result ≡ list_any (λ w. bytes_eq word.now w.now) words.now }
{
    for other in words {
        if is_same(word, *other) {
            return true;
        }
    }
    false
}

/// Whether the word is no name. Where the word is a constant, the compiler answers.
#[inline(always)]
#[tactic(auto, unfolding(model_text::specs::Lexemes::reserved_words))]
pub(crate) fn is_word_reserved(word: &str) -> bool
    ensures { result ≡ is_reserved word.now }
{
    match word.as_bytes() {
        [first, ..] => is_among(words_from(*first), word),
        [] => false,
    }
}

/// Whether the word is the one that version 2 alone reserves.
#[inline(always)]
pub fn is_insert(word: &str) -> bool
    ensures { result ≡ bytes_eq word.now insert_word }
{
    is_same(word, "insertBefore")
}

/// Whether the word is no name.
#[inline(never)]
pub fn is_reserved(word: &str) -> bool
    ensures { result ≡ is_reserved word.now }
{
    is_word_reserved(word)
}
