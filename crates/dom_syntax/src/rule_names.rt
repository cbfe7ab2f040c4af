// The names of the rules.
ghost use Rattle.std.specs.Prelude.{◌≡◌, bytes_eq};
ghost use Rattle.std.specs.List.{list_any};
ghost use Rattle.model_files.specs.FileFaults as files;
ghost use Rattle.model_files.specs.RuleNames as model;

use dom_terms::Text;

// Most steps cite a rule for triples, so those are asked first.
const TRIPLE_RULES: [&str; 24] = [
    "skip",
    "assign",
    "seq",
    "if",
    "while",
    "local",
    "call",
    "frame",
    "consequence",
    "eliminate",
    "disjunction",
    "absurd",
    "instance",
    "name",
    "children",
    "item",
    "item_none",
    "parent",
    "parent_none",
    "create",
    "append",
    "remove",
    "insert_before",
    "insert_last",
];

// Those of the axioms of insertBefore, which version 1 doesn't have.
const SECOND_VERSION_RULES: [&str; 2] = ["insert_before", "insert_last"];

const ENTAILMENT_RULES: [&str; 120] = [
    "id",
    "cut",
    "true_in",
    "false_out",
    "and_in",
    "and_left",
    "and_right",
    "or_left",
    "or_right",
    "or_out",
    "imp_in",
    "imp_out",
    "not_in",
    "not_out",
    "classical",
    "forall_in",
    "forall_out",
    "exists_in",
    "exists_out",
    "eq_refl",
    "eq_subst",
    "distinct",
    "int_total",
    "linear",
    "concat",
    "star_assoc",
    "star_assoc_back",
    "star_left_assoc",
    "star_left_assoc_back",
    "star_right_assoc",
    "star_right_assoc_back",
    "star_mid_assoc",
    "star_mid_assoc_back",
    "star_unit",
    "star_unit_back",
    "unit_star",
    "unit_star_back",
    "star_left_unit",
    "star_left_unit_back",
    "star_right_unit",
    "star_right_unit_back",
    "plus_assoc",
    "plus_assoc_back",
    "plus_comm",
    "plus_unit",
    "plus_unit_back",
    "plus_left_assoc",
    "plus_left_assoc_back",
    "plus_left_unit",
    "plus_left_unit_back",
    "mono_star",
    "mono_star_left",
    "mono_star_right",
    "mono_plus",
    "mono_plus_left",
    "mono_node",
    "mono_tree",
    "mono_root",
    "mono_app",
    "mono_hole_adj",
    "mono_ctx_adj",
    "pure_out",
    "pure_in",
    "hole_left",
    "hole_left_back",
    "hole_right",
    "hole_right_back",
    "app_assoc",
    "app_assoc_back",
    "app_node",
    "app_node_back",
    "app_tree",
    "app_tree_back",
    "app_root",
    "app_root_back",
    "app_star_left",
    "app_star_left_back",
    "app_star_right",
    "app_star_right_back",
    "app_plus",
    "app_plus_back",
    "hole_adj_in",
    "hole_adj_out",
    "ctx_adj_in",
    "ctx_adj_out",
    "app_exists_part",
    "app_exists_ctx",
    "app_or_part",
    "app_or_ctx",
    "some",
    "cancel_app",
    "cancel_left",
    "cancel_right",
    "cancel_plus",
    "is_in",
    "is_out",
    "is_mono",
    "node_and",
    "tree_and",
    "root_and",
    "node_some",
    "not_null",
    "apart_star",
    "apart_plus",
    "apart_up",
    "forest_cases",
    "grove_cases",
    "empty_star",
    "empty_plus",
    "tree_full",
    "root_full",
    "head",
    "last",
    "len_empty",
    "len_zero",
    "len_tree",
    "len_star",
    "len_some",
    "len_unique",
    "len_nonneg",
];

// Whether the word is one of these.
fn is_among(words: &[&str], word: &str) -> bool
    ensures { result ≡ list_any (λ w. bytes_eq word.now w.now) words.now }
{
    words.iter().any(|other| word == *other)
}

// Whether a rule has the name.
fn is_rule_name(name: &Text) -> bool
    ensures { result ≡ model.is_rule_name name.now }
{
    let name = name.as_str();
    is_among(&TRIPLE_RULES, name) || is_among(&ENTAILMENT_RULES, name)
}

/// Whether the version has a rule of the name.
pub(crate) fn is_rule_of_version(version: u32, name: &Text) -> bool
    ensures { result ≡ files.is_rule_of_version version name.now }
{
    is_rule_name(name) && (version == 2 || !is_among(&SECOND_VERSION_RULES, name.as_str()))
}
