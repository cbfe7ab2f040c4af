// How many brackets are open after a symbol.
ghost use Rattle.std.specs.Prelude.{◌≡◌, ◌<◌};
ghost use Rattle.model_text.specs.Lexemes.{terminal};
ghost use Rattle.model_text.specs.Nesting as model;

use crate::reserved::is_same;

// Whether the text is that of an opening bracket.
#[inline(always)]
fn opens(text: &str) -> bool
    ensures { result ≡ model.opens (terminal text.now) }
{
    is_same(text, "(") || is_same(text, "[") || is_same(text, "{") || is_same(text, "<")
}

// Whether the text is that of a closing bracket.
#[inline(always)]
fn closes(text: &str) -> bool
    ensures { result ≡ model.closes (terminal text.now) }
{
    is_same(text, ")") || is_same(text, "]") || is_same(text, "}") || is_same(text, ">")
}

/// How many brackets are open after the symbol, where so many are open before it.
#[inline(always)]
pub fn open_behind_symbol(before: u64, text: &str) -> u64
    requires { before < 4_294_967_296 }
    ensures { result ≡ model.open_behind before (terminal text.now) }
{
    if opens(text) {
        before + 1
    } else if closes(text) {
        before.saturating_sub(1)
    } else {
        before
    }
}
