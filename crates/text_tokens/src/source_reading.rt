// The tokens of a source.
ghost use Rattle.std.specs.Prelude.{◌≡◌, ℕ, ◌<◌, length, slice_get, None, Some, IfOk};
ghost use Rattle.model_text.specs.Lexemes.{bad_lexeme};
ghost use Rattle.model_text.specs.Nesting.{lexemes_of, token_limit};
ghost use Rattle.text_tokens.specs.Lexemes.{lexemes_in};
ghost use Rattle.text_tokens.specs.Sources.{lexemes_from};

use crate::ascii::AsciiFront;
use crate::ascii_watching::stopped;
use crate::fronts::{Front, Left};
use crate::limits::token_limit;
use crate::reading::token_list;
use crate::sources::Source;
use dom_terms::OutOfMemory;
use std::alloc::Global;

impl<'a> Source<'a> {
    /// The tokens of the bytes, where so many brackets may be open: all of them where none passes a
    /// limit, and else fewer, with a bad one where one does. OutOfMemory comes only where memory is
    /// refused, which is asked for where the bytes aren't ASCII.
    pub fn new(alloc: Global, bytes: &'a [u8], most: u32) -> Result<Source<'a>, OutOfMemory>
        requires { length bytes.now < 4294967295 }
        ensures whole { IfOk result (λ source. token_limit most 0 (lexemes_of bytes.now) ≡ None
            → lexemes_from source ≡ lexemes_of bytes.now) }
        ensures told { IfOk result (λ source.
            ((place : ℕ) → slice_get (lexemes_from source) place ≡ Some bad_lexeme → ⊥)
            → token_limit most 0 (lexemes_of bytes.now) ≡ None) }
    {
        if let Some(front) = AsciiFront::of_bytes(bytes, most) {
            return Ok(Source::Ascii(front));
        }
        let tokens = token_list(alloc, bytes)?;
        match token_limit(&tokens, most) {
            Some(_) => Ok(Source::Ascii(stopped(most))),
            None => Ok(Source::Listed(tokens)),
        }
    }

    /// All of them, for a reader.
    #[tactic(auto, unfolding(crate::specs::Lexemes::lexemes_left))]
    pub fn front(&self) -> Front
        ensures { lexemes_in result ≡ lexemes_from self.now }
    {
        match self {
            Source::Ascii(front) => Front::of_left(Left::Ascii(*front)),
            Source::Listed(tokens) => Front::of_left(Left::Listed(tokens.as_slice())),
        }
    }
}
