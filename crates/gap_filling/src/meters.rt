// The room that is left for the text of an offer.
ghost use Rattle.std.specs.Prelude.{◌≡◌, ◌≤◌, ◌^◌, ◌∷◌, [], ℕ, length, List};
ghost use Rattle.std.specs.Fmt.{decimal};
ghost use Rattle.model_text.specs.Lexemes.{terminal, step_word, name_lexeme, logic_lexeme};
ghost use Rattle.model_text.specs.Lexemes.{number_lexeme, literal_lexeme, word_lexeme};
ghost use Rattle.model_text.specs.Nesting as model;
ghost use Rattle.model_documents.specs.Printed.{quoted};
ghost use Rattle.model_grammar.specs.TheoryWriting.{word_lexemes};
ghost use Rattle.gap_filling.specs.Measured.{after, measured, spent};

use dom_terms::Text;
use dom_terms::limits::{FILE_NESTING, INTEGER, TEXT_BYTES};

/// The room that is left for a text: its tokens may have more bytes, one between each two counted,
/// and some brackets are open.
#[derive(Clone, Copy, Debug)]
pub(crate) struct Meter {
    /// How many bytes are left.
    pub(crate) bytes: usize,
    /// How many brackets are open.
    pub(crate) brackets: u32,
    /// Whether each token fits so far; if not, the other two aren't kept up to date.
    pub(crate) fits: bool,
}

// Whether the token opens a bracket.
fn opens(token: &str) -> bool
    ensures { result ≡ model.opens (terminal token.now) }
{
    token == "(" || token == "[" || token == "{" || token == "<"
}

// Whether the token closes a bracket.
fn closes(token: &str) -> bool
    ensures { result ≡ model.closes (terminal token.now) }
{
    token == ")" || token == "]" || token == "}" || token == ">"
}

// How many brackets are open after a symbol or a word of the grammar.
fn open_behind(before: u32, token: &str) -> u64
    ensures { result ≡ model.open_behind before (terminal token.now) }
{
    if opens(token) {
        u64::from(before) + 1
    } else if closes(token) {
        u64::from(before).saturating_sub(1)
    } else {
        u64::from(before)
    }
}

// How many digits the number has.
fn digit_count(number: u64) -> usize
    ensures { result ≡ length (decimal number) }
{
    if number < 10 {
        return 1;
    }
    digit_count(number / 10) + 1
}

// How many bytes the literal has that stands for a short text.
fn quoted_bytes(text: &Text) -> usize
    requires { length text.now ≤ 4096 }
    ensures { result ≡ length (quoted text.now) }
{
    let mut bytes = 2;
    for byte in text.as_str().as_bytes() {
        bytes += if *byte == b'"' || *byte == b'\\' || *byte == b'\n' {
            2
        } else {
            1
        };
    }
    bytes
}

impl Meter {
    // Takes the room for a token of so many bytes, with so many brackets open after it, that may
    // stand here or not.
    fn spend(&mut self, bytes: usize, brackets: u64, may: bool)
        ensures { self.new ≡ spent self.old bytes brackets may }
    {
        if self.fits && bytes < self.bytes && brackets <= u64::from(FILE_NESTING) && may {
            self.bytes -= bytes + 1;
            self.brackets = brackets as u32;
        } else {
            self.fits = false;
        }
    }

    /// Takes the room for a symbol or a reserved word of the grammar.
    #[tactic(auto, unfolding(crate::specs::Measured::after))]
    pub(crate) fn token(&mut self, token: &str)
        ensures { self.new ≡ measured self.old (terminal token.now ∷ []) }
    {
        self.spend(token.len(), open_behind(self.brackets, token), true);
    }

    /// Takes the room for a name.
    #[tactic(auto, unfolding(crate::specs::Measured::after))]
    pub(crate) fn name(&mut self, name: &str)
        ensures plain { self.new ≡ measured self.old (name_lexeme name.now ∷ []) }
        ensures logic { self.new ≡ measured self.old (logic_lexeme name.now ∷ []) }
    {
        self.spend(name.len(), u64::from(self.brackets), true);
    }

    /// Takes the room for the name of a rule.
    pub(crate) fn rule_name(&mut self, name: &str)
        ensures { (version : ℕ)
            → self.new ≡ measured self.old (word_lexemes version name.now) }
    {
        self.spend(name.len(), u64::from(self.brackets), true);
    }

    /// Takes the room for the word `step`, on whatever line.
    #[tactic(auto, unfolding(crate::specs::Measured::after))]
    pub(crate) fn step(&mut self)
        ensures { (line : ℕ) → self.new ≡ measured self.old (step_word line ∷ []) }
    {
        self.spend(4, u64::from(self.brackets), true);
    }

    /// Takes the room for a number.
    #[tactic(auto, unfolding(crate::specs::Measured::after))]
    pub(crate) fn numeral(&mut self, number: u64)
        ensures { self.new ≡ measured self.old (number_lexeme number ∷ []) }
    {
        self.spend(
            digit_count(number),
            u64::from(self.brackets),
            number <= INTEGER,
        );
    }

    /// Takes the room for a literal.
    #[tactic(auto, unfolding(crate::specs::Measured::after))]
    pub(crate) fn literal(&mut self, text: &Text)
        ensures { self.new ≡ measured self.old (literal_lexeme text.now ∷ []) }
    {
        if text.len() > TEXT_BYTES {
            self.fits = false;
        } else {
            self.spend(quoted_bytes(text), u64::from(self.brackets), true);
        }
    }
}
