//! Certificates: theories as bytes, which can be checked while they are read, with no Rust data.
//! Promises that a theory has one certificate, and that the items that are read don't depend on how
//! the bytes were cut. Stands on theories and on what of them can be written.
#![tactic(auto)]

ghost use Rattle.std.specs.Prelude.{◌≡◌, ℕ, List, [], ◌++◌};
ghost use Rattle.model_shapes.specs.Values.{Text};
ghost use Rattle.model_terms.specs.Terms.{Term};
ghost use Rattle.model_formulas.specs.Formulas.{Named};
ghost use Rattle.model_commands.specs.Commands.{Command};
ghost use Rattle.model_commands.specs.Each.{Each};
ghost use Rattle.model_commands.specs.Theories.{StepOf, Theory};
ghost use Rattle.model_files.specs.Sizes.{JudgementIsSmall, TheoryIsSmall};
ghost use Rattle.model_grammar.specs.Terms.{Place as InText};
ghost use Rattle.model_text.specs.Versions.{IsOfVersion};
ghost use Rattle.model_grammar.specs.Writing.{term_lexemes, command_lexemes};
ghost use Rattle.model_grammar.specs.TheoryWriting.{formula_lexemes};
ghost use Rattle.model_grammar.specs.Writable.{IsWritableTerm, IsWritable, IsWritableCommand};
ghost use Rattle.model_certificates.specs.Terms.{term_bytes};
ghost use Rattle.model_certificates.specs.Formulas.{formula_bytes};
ghost use Rattle.model_certificates.specs.Commands.{command_bytes};
ghost use Rattle.model_certificates.specs.Bounds.{TermFits, FormulaFits, CommandFits};
ghost use Rattle.model_certificates.specs.Certificates.{Item, head, proof_step, IsItem, items_of, certificate_bytes};
ghost use Rattle.model_certificates.specs.Certificates.{SpellsCertificate};
ghost use Rattle.model_certificates.specs.Places.{Place, start, ended, IsBad, Begins, Waits};
ghost use Rattle.model_certificates.specs.Places.{Takes, Reads, joined, IsSpelled};

/// No spelling of a term, a formula or a command that can be written in a version begins another.
pub fn spellings_are_apart()
    ensures terms { (version : ℕ) (place : InText) (n : ℕ) (a b : Term) (s t : List ℕ)
        → IsWritableTerm place a → TermFits n a → Each (IsOfVersion version) (term_lexemes a)
        → IsWritableTerm place b → TermFits n b → Each (IsOfVersion version) (term_lexemes b)
        → term_bytes a ++ s ≡ term_bytes b ++ t → (a ≡ b) × (s ≡ t) }
    ensures formulas { (version n : ℕ) (p q : Named) (s t : List ℕ)
        → IsWritable p → FormulaFits n p → Each (IsOfVersion version) (formula_lexemes p)
        → IsWritable q → FormulaFits n q → Each (IsOfVersion version) (formula_lexemes q)
        → formula_bytes p ++ s ≡ formula_bytes q ++ t → (p ≡ q) × (s ≡ t) }
    ensures commands { (version n : ℕ) (c d : Command) (s t : List ℕ)
        → IsWritableCommand c → CommandFits n c → Each (IsOfVersion version) (command_lexemes c)
        → IsWritableCommand d → CommandFits n d → Each (IsOfVersion version) (command_lexemes d)
        → command_bytes c ++ s ≡ command_bytes d ++ t → (c ≡ d) × (s ≡ t) }
{}

/// A theory whose items have a spelling has one certificate, and a certificate spells one theory.
pub fn certificates_are_unique()
    ensures spelled { (t : Theory) → Each (IsItem t.version) (items_of t)
        → SpellsCertificate t (certificate_bytes t) }
    ensures one_certificate { (t : Theory) (bytes others : List ℕ) → SpellsCertificate t bytes
        → SpellsCertificate t others → bytes ≡ others }
    ensures one_theory { (t u : Theory) (bytes : List ℕ) → SpellsCertificate t bytes
        → SpellsCertificate u bytes → t ≡ u }
{}

/// What has come begins with one item at most, and then it isn't bad; more bytes change neither.
pub fn one_thing_is_told()
    ensures one { (place : Place) (rest : List ℕ) (a b : Item) (s t : List ℕ)
        → Begins place rest a s → Begins place rest b t → (a ≡ b) × (s ≡ t) }
    ensures apart { (place : Place) (rest : List ℕ) (item : Item) (left : List ℕ)
        → Begins place rest item left → IsBad place rest → ⊥ }
    ensures still_item { (place : Place) (rest more : List ℕ) (item : Item) (left : List ℕ)
        → Begins place rest item left → Begins place (rest ++ more) item (left ++ more) }
    ensures still_bad { (place : Place) (rest more : List ℕ) → IsBad place rest
        → IsBad place (rest ++ more) }
{}

/// Bytes in pieces are read, and as the whole is: the items, the place and what is left in the end
/// don't depend on how they were cut.
pub fn cuts_dont_matter()
    ensures { (pieces : List (List ℕ)) (items others : List Item) (next then : Place)
        (left last : List ℕ) → Reads start [] pieces items next left
        → Takes start (joined pieces) others then last
        → (items ≡ others) × (next ≡ then) × (left ≡ last) }
{}

/// What an item spells is small enough for the calls that judge it.
pub fn items_are_small()
    ensures steps { (version n : ℕ) (s : StepOf Named) → IsItem version (proof_step n s)
        → JudgementIsSmall s.judgement }
    ensures heads { (version : ℕ) (t : Theory) → IsItem version (head t) → TheoryIsSmall t }
{}

/// Bytes that are read to the end, with nothing left, are the certificate of a theory.
pub fn what_is_read_to_the_end_is_a_certificate()
    ensures { (bytes : List ℕ) (items : List Item) → Takes start bytes items ended []
        → IsSpelled bytes items }
{}

/// A certificate in whatever pieces gives the items of its theory, and then the end.
pub fn certificates_are_read()
    ensures whole { (t : Theory) (bytes : List ℕ) → SpellsCertificate t bytes
        → Takes start bytes (items_of t) ended [] }
    ensures pieces { (t : Theory) (bytes : List ℕ) (pieces : List (List ℕ)) (items : List Item)
        (place : Place) (rest : List ℕ) → SpellsCertificate t bytes → joined pieces ≡ bytes
        → Reads start [] pieces items place rest
        → (items ≡ items_of t) × (place ≡ ended) × (rest ≡ []) }
{}
