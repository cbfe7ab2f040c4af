// The names of the rules of entailment.
ghost use Rattle.std.specs.Prelude.{◌≡◌, ◌↔◌, bytes_eq, find, is_some, map};
ghost use Rattle.std.specs.Option.{option_map};
ghost use Rattle.std.specs.List.{list_any};
ghost use Rattle.model_files.specs.RuleNames.{entailment_rule_names};
ghost use Rattle.rule_rows.specs.Names.{name_of};
ghost use Rattle.rule_rows.specs.Searching.{rule_in};

/// A rule of entailment.
#[derive(Clone, Copy, Debug, PartialEq, Eq)]
pub enum EntailRule {
    /// `id`
    Id,
    /// `cut`
    Cut,
    /// `true_in`
    TrueIn,
    /// `false_out`
    FalseOut,
    /// `and_in`
    AndIn,
    /// `and_left`
    AndLeft,
    /// `and_right`
    AndRight,
    /// `or_left`
    OrLeft,
    /// `or_right`
    OrRight,
    /// `or_out`
    OrOut,
    /// `imp_in`
    ImpIn,
    /// `imp_out`
    ImpOut,
    /// `not_in`
    NotIn,
    /// `not_out`
    NotOut,
    /// `classical`
    Classical,
    /// `forall_in`
    ForallIn,
    /// `forall_out`
    ForallOut,
    /// `exists_in`
    ExistsIn,
    /// `exists_out`
    ExistsOut,
    /// `eq_refl`
    EqRefl,
    /// `eq_subst`
    EqSubst,
    /// `distinct`
    Distinct,
    /// `int_total`
    IntTotal,
    /// `linear`
    Linear,
    /// `concat`
    Concat,
    /// `star_assoc`
    StarAssoc,
    /// `star_assoc_back`
    StarAssocBack,
    /// `star_left_assoc`
    StarLeftAssoc,
    /// `star_left_assoc_back`
    StarLeftAssocBack,
    /// `star_right_assoc`
    StarRightAssoc,
    /// `star_right_assoc_back`
    StarRightAssocBack,
    /// `star_mid_assoc`
    StarMidAssoc,
    /// `star_mid_assoc_back`
    StarMidAssocBack,
    /// `star_unit`
    StarUnit,
    /// `star_unit_back`
    StarUnitBack,
    /// `unit_star`
    UnitStar,
    /// `unit_star_back`
    UnitStarBack,
    /// `star_left_unit`
    StarLeftUnit,
    /// `star_left_unit_back`
    StarLeftUnitBack,
    /// `star_right_unit`
    StarRightUnit,
    /// `star_right_unit_back`
    StarRightUnitBack,
    /// `plus_assoc`
    PlusAssoc,
    /// `plus_assoc_back`
    PlusAssocBack,
    /// `plus_comm`
    PlusComm,
    /// `plus_unit`
    PlusUnit,
    /// `plus_unit_back`
    PlusUnitBack,
    /// `plus_left_assoc`
    PlusLeftAssoc,
    /// `plus_left_assoc_back`
    PlusLeftAssocBack,
    /// `plus_left_unit`
    PlusLeftUnit,
    /// `plus_left_unit_back`
    PlusLeftUnitBack,
    /// `mono_star`
    MonoStar,
    /// `mono_star_left`
    MonoStarLeft,
    /// `mono_star_right`
    MonoStarRight,
    /// `mono_plus`
    MonoPlus,
    /// `mono_plus_left`
    MonoPlusLeft,
    /// `mono_node`
    MonoNode,
    /// `mono_tree`
    MonoTree,
    /// `mono_root`
    MonoRoot,
    /// `mono_app`
    MonoApp,
    /// `mono_hole_adj`
    MonoHoleAdj,
    /// `mono_ctx_adj`
    MonoCtxAdj,
    /// `pure_out`
    PureOut,
    /// `pure_in`
    PureIn,
    /// `hole_left`
    HoleLeft,
    /// `hole_left_back`
    HoleLeftBack,
    /// `hole_right`
    HoleRight,
    /// `hole_right_back`
    HoleRightBack,
    /// `app_assoc`
    AppAssoc,
    /// `app_assoc_back`
    AppAssocBack,
    /// `app_node`
    AppNode,
    /// `app_node_back`
    AppNodeBack,
    /// `app_tree`
    AppTree,
    /// `app_tree_back`
    AppTreeBack,
    /// `app_root`
    AppRoot,
    /// `app_root_back`
    AppRootBack,
    /// `app_star_left`
    AppStarLeft,
    /// `app_star_left_back`
    AppStarLeftBack,
    /// `app_star_right`
    AppStarRight,
    /// `app_star_right_back`
    AppStarRightBack,
    /// `app_plus`
    AppPlus,
    /// `app_plus_back`
    AppPlusBack,
    /// `hole_adj_in`
    HoleAdjIn,
    /// `hole_adj_out`
    HoleAdjOut,
    /// `ctx_adj_in`
    CtxAdjIn,
    /// `ctx_adj_out`
    CtxAdjOut,
    /// `app_exists_part`
    AppExistsPart,
    /// `app_exists_ctx`
    AppExistsCtx,
    /// `app_or_part`
    AppOrPart,
    /// `app_or_ctx`
    AppOrCtx,
    /// `some`
    Some,
    /// `cancel_app`
    CancelApp,
    /// `cancel_left`
    CancelLeft,
    /// `cancel_right`
    CancelRight,
    /// `cancel_plus`
    CancelPlus,
    /// `is_in`
    IsIn,
    /// `is_out`
    IsOut,
    /// `is_mono`
    IsMono,
    /// `node_and`
    NodeAnd,
    /// `tree_and`
    TreeAnd,
    /// `root_and`
    RootAnd,
    /// `node_some`
    NodeSome,
    /// `not_null`
    NotNull,
    /// `apart_star`
    ApartStar,
    /// `apart_plus`
    ApartPlus,
    /// `apart_up`
    ApartUp,
    /// `forest_cases`
    ForestCases,
    /// `grove_cases`
    GroveCases,
    /// `empty_star`
    EmptyStar,
    /// `empty_plus`
    EmptyPlus,
    /// `tree_full`
    TreeFull,
    /// `root_full`
    RootFull,
    /// `head`
    Head,
    /// `last`
    Last,
    /// `len_empty`
    LenEmpty,
    /// `len_zero`
    LenZero,
    /// `len_tree`
    LenTree,
    /// `len_star`
    LenStar,
    /// `len_some`
    LenSome,
    /// `len_unique`
    LenUnique,
    /// `len_nonneg`
    LenNonneg,
}

const RULES: &'static [(&'static str, EntailRule)] = &[
    ("id", EntailRule::Id),
    ("cut", EntailRule::Cut),
    ("true_in", EntailRule::TrueIn),
    ("false_out", EntailRule::FalseOut),
    ("and_in", EntailRule::AndIn),
    ("and_left", EntailRule::AndLeft),
    ("and_right", EntailRule::AndRight),
    ("or_left", EntailRule::OrLeft),
    ("or_right", EntailRule::OrRight),
    ("or_out", EntailRule::OrOut),
    ("imp_in", EntailRule::ImpIn),
    ("imp_out", EntailRule::ImpOut),
    ("not_in", EntailRule::NotIn),
    ("not_out", EntailRule::NotOut),
    ("classical", EntailRule::Classical),
    ("forall_in", EntailRule::ForallIn),
    ("forall_out", EntailRule::ForallOut),
    ("exists_in", EntailRule::ExistsIn),
    ("exists_out", EntailRule::ExistsOut),
    ("eq_refl", EntailRule::EqRefl),
    ("eq_subst", EntailRule::EqSubst),
    ("distinct", EntailRule::Distinct),
    ("int_total", EntailRule::IntTotal),
    ("linear", EntailRule::Linear),
    ("concat", EntailRule::Concat),
    ("star_assoc", EntailRule::StarAssoc),
    ("star_assoc_back", EntailRule::StarAssocBack),
    ("star_left_assoc", EntailRule::StarLeftAssoc),
    ("star_left_assoc_back", EntailRule::StarLeftAssocBack),
    ("star_right_assoc", EntailRule::StarRightAssoc),
    ("star_right_assoc_back", EntailRule::StarRightAssocBack),
    ("star_mid_assoc", EntailRule::StarMidAssoc),
    ("star_mid_assoc_back", EntailRule::StarMidAssocBack),
    ("star_unit", EntailRule::StarUnit),
    ("star_unit_back", EntailRule::StarUnitBack),
    ("unit_star", EntailRule::UnitStar),
    ("unit_star_back", EntailRule::UnitStarBack),
    ("star_left_unit", EntailRule::StarLeftUnit),
    ("star_left_unit_back", EntailRule::StarLeftUnitBack),
    ("star_right_unit", EntailRule::StarRightUnit),
    ("star_right_unit_back", EntailRule::StarRightUnitBack),
    ("plus_assoc", EntailRule::PlusAssoc),
    ("plus_assoc_back", EntailRule::PlusAssocBack),
    ("plus_comm", EntailRule::PlusComm),
    ("plus_unit", EntailRule::PlusUnit),
    ("plus_unit_back", EntailRule::PlusUnitBack),
    ("plus_left_assoc", EntailRule::PlusLeftAssoc),
    ("plus_left_assoc_back", EntailRule::PlusLeftAssocBack),
    ("plus_left_unit", EntailRule::PlusLeftUnit),
    ("plus_left_unit_back", EntailRule::PlusLeftUnitBack),
    ("mono_star", EntailRule::MonoStar),
    ("mono_star_left", EntailRule::MonoStarLeft),
    ("mono_star_right", EntailRule::MonoStarRight),
    ("mono_plus", EntailRule::MonoPlus),
    ("mono_plus_left", EntailRule::MonoPlusLeft),
    ("mono_node", EntailRule::MonoNode),
    ("mono_tree", EntailRule::MonoTree),
    ("mono_root", EntailRule::MonoRoot),
    ("mono_app", EntailRule::MonoApp),
    ("mono_hole_adj", EntailRule::MonoHoleAdj),
    ("mono_ctx_adj", EntailRule::MonoCtxAdj),
    ("pure_out", EntailRule::PureOut),
    ("pure_in", EntailRule::PureIn),
    ("hole_left", EntailRule::HoleLeft),
    ("hole_left_back", EntailRule::HoleLeftBack),
    ("hole_right", EntailRule::HoleRight),
    ("hole_right_back", EntailRule::HoleRightBack),
    ("app_assoc", EntailRule::AppAssoc),
    ("app_assoc_back", EntailRule::AppAssocBack),
    ("app_node", EntailRule::AppNode),
    ("app_node_back", EntailRule::AppNodeBack),
    ("app_tree", EntailRule::AppTree),
    ("app_tree_back", EntailRule::AppTreeBack),
    ("app_root", EntailRule::AppRoot),
    ("app_root_back", EntailRule::AppRootBack),
    ("app_star_left", EntailRule::AppStarLeft),
    ("app_star_left_back", EntailRule::AppStarLeftBack),
    ("app_star_right", EntailRule::AppStarRight),
    ("app_star_right_back", EntailRule::AppStarRightBack),
    ("app_plus", EntailRule::AppPlus),
    ("app_plus_back", EntailRule::AppPlusBack),
    ("hole_adj_in", EntailRule::HoleAdjIn),
    ("hole_adj_out", EntailRule::HoleAdjOut),
    ("ctx_adj_in", EntailRule::CtxAdjIn),
    ("ctx_adj_out", EntailRule::CtxAdjOut),
    ("app_exists_part", EntailRule::AppExistsPart),
    ("app_exists_ctx", EntailRule::AppExistsCtx),
    ("app_or_part", EntailRule::AppOrPart),
    ("app_or_ctx", EntailRule::AppOrCtx),
    ("some", EntailRule::Some),
    ("cancel_app", EntailRule::CancelApp),
    ("cancel_left", EntailRule::CancelLeft),
    ("cancel_right", EntailRule::CancelRight),
    ("cancel_plus", EntailRule::CancelPlus),
    ("is_in", EntailRule::IsIn),
    ("is_out", EntailRule::IsOut),
    ("is_mono", EntailRule::IsMono),
    ("node_and", EntailRule::NodeAnd),
    ("tree_and", EntailRule::TreeAnd),
    ("root_and", EntailRule::RootAnd),
    ("node_some", EntailRule::NodeSome),
    ("not_null", EntailRule::NotNull),
    ("apart_star", EntailRule::ApartStar),
    ("apart_plus", EntailRule::ApartPlus),
    ("apart_up", EntailRule::ApartUp),
    ("forest_cases", EntailRule::ForestCases),
    ("grove_cases", EntailRule::GroveCases),
    ("empty_star", EntailRule::EmptyStar),
    ("empty_plus", EntailRule::EmptyPlus),
    ("tree_full", EntailRule::TreeFull),
    ("root_full", EntailRule::RootFull),
    ("head", EntailRule::Head),
    ("last", EntailRule::Last),
    ("len_empty", EntailRule::LenEmpty),
    ("len_zero", EntailRule::LenZero),
    ("len_tree", EntailRule::LenTree),
    ("len_star", EntailRule::LenStar),
    ("len_some", EntailRule::LenSome),
    ("len_unique", EntailRule::LenUnique),
    ("len_nonneg", EntailRule::LenNonneg),
];

// The rule of the first of these that has the name.
fn find_rule(rules: &[(&str, EntailRule)], name: &str) -> Option<EntailRule>
    ensures { result ≡ option_map (λ named. named.1)
        (find (λ named. bytes_eq name.now named.0.now) rules.now) }
{
    rules
        .iter()
        .find(|named| name == named.0)
        .map(|named| named.1)
}

// The same, in the words of the table.
fn rule_among(rules: &[(&str, EntailRule)], name: &str) -> Option<EntailRule>
    ensures { result ≡ rule_in (map (λ named. (named.0.now, named.1)) rules.now) name.now }
{
    find_rule(rules, name)
}

/// The rule of that name, if there is one.
pub fn rule_of(name: &str) -> Option<EntailRule>
    ensures named { (rule : EntailRule) → (result ≡ Some rule) ↔ (name.now ≡ name_of rule) }
    ensures known { is_some result ≡ list_any (bytes_eq name.now) entailment_rule_names }
{
    rule_among(RULES, name)
}
