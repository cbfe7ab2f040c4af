//! The definitions of tokens and of what the grammar sees of them, with no Rust data.
//! Promises nothing by itself: the definitions stand in `specs/`, their laws are functions here.
//! Stands on std and on the Unicode tables of identifiers alone.
#![tactic(auto)]

ghost use Rattle.std.specs.Prelude.{◌≡◌, ◌≢◌, ℕ, suc, ◌+◌, ◌≤◌, List, length, All};
ghost use Rattle.model_text.specs.Lexemes.{bad_lexeme, lexeme_of};
ghost use Rattle.model_text.specs.Tokens.{bad_token, tokens_from, tokens_of};

/// One step for each character that is left, and one more, are enough: more steps read the same.
pub fn enough_steps()
    ensures { (bytes text : List ℕ) (j k number : ℕ)
        → length text ≤ number + j → length text ≤ number + k
        → tokens_from bytes text (suc j) number ≡ tokens_from bytes text (suc k) number }
{}

/// Each token of a text but a bad one is seen by the grammar as something.
pub fn tokens_are_seen()
    ensures { (bytes : List ℕ)
        → All (λ token. token.kind ≢ bad_token → lexeme_of token ≢ bad_lexeme) (tokens_of bytes) }
{}
