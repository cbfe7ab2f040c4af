// The rules for triples by their names. The axioms of the commands are none of them.
ghost use Rattle.std.specs.Prelude.{◌≡◌, MatchOption};
ghost use Rattle.model_commands.specs.Theories.{Procedures};
ghost use Rattle.rule_table.specs.Axioms.{axioms};
ghost use Rattle.rule_table.specs.Table.{triples};
ghost use Rattle.rule_table.specs.Verdicts.{readings_in};
ghost use Rattle.hoare_kernel.specs.Called.{rule_called};
ghost use Rattle.hoare_kernel.specs.Names.{name_of};

/// A rule for triples.
#[derive(Clone, Copy)]
pub enum TripleRule {
    /// `skip`
    Skip,
    /// `assign`
    Assign,
    /// `seq`
    Seq,
    /// `if`
    If,
    /// `while`
    While,
    /// `local`
    Local,
    /// `call`
    Call,
    /// `frame`
    Frame,
    /// `consequence`
    Consequence,
    /// `eliminate`
    Eliminate,
    /// `disjunction`
    Disjunction,
    /// `absurd`
    Absurd,
    /// `instance`
    Instance,
}

// The first rule of that name.
fn find_rule(name: &str) -> Option<TripleRule>
    ensures { result ≡ rule_called name.now }
{
    match name {
        "skip" => Some(TripleRule::Skip),
        "assign" => Some(TripleRule::Assign),
        "seq" => Some(TripleRule::Seq),
        "if" => Some(TripleRule::If),
        "while" => Some(TripleRule::While),
        "local" => Some(TripleRule::Local),
        "call" => Some(TripleRule::Call),
        "frame" => Some(TripleRule::Frame),
        "consequence" => Some(TripleRule::Consequence),
        "eliminate" => Some(TripleRule::Eliminate),
        "disjunction" => Some(TripleRule::Disjunction),
        "absurd" => Some(TripleRule::Absurd),
        "instance" => Some(TripleRule::Instance),
        _ => None,
    }
}

/// The rule of that name. Where there is none, an axiom may have the name.
pub fn triple_rule_of(name: &str) -> Option<TripleRule>
    ensures { (procedures : Procedures) → MatchOption result
        (readings_in (triples procedures) name.now ≡ readings_in axioms name.now)
        (λ rule. name.now ≡ name_of rule) }
{
    find_rule(name)
}
