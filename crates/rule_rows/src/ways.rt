// How the verdicts of each rule are found: the rows of those that are matched.
ghost use Rattle.std.specs.Prelude.{◌≡◌};
ghost use Rattle.rule_patterns.specs.Ways as patterns;
ghost use Rattle.rule_rows.specs.declared.ways.Computed.{Computed as AComputed};
ghost use Rattle.rule_rows.specs.declared.ways.Way.TheVariants as w;
ghost use Rattle.rule_rows.specs.Names.{name_of, computed_name};
ghost use Rattle.rule_rows.specs.Rows.{way_in};

use crate::names::EntailRule;
use crate::notation::Rows;
use crate::{contexts, logic, monotony, nodes, structure};

/// A rule of entailment whose verdicts are computed.
#[derive(Clone, Copy, Debug, PartialEq, Eq)]
pub enum Computed {
    /// `eq_subst`
    EqSubst,
    /// `distinct`
    Distinct,
    /// `linear`
    Linear,
    /// `concat`
    Concat,
}

/// How the verdicts of a rule are found: by matching these rows, or by computing.
#[derive(Clone, Copy)]
pub enum Way {
    /// By matching what is written with the rows.
    Matched(Rows),
    /// By what is computed from it.
    Computed(Computed),
}

/// How the verdicts of the rule are found: the table of the rules, a line for each.
pub fn way_of(rule: EntailRule) -> Way
    ensures way { patterns.way_of (name_of rule) ≡ way_in result }
    ensures computed { (other : AComputed) → result ≡ w.Computed other
        → name_of rule ≡ computed_name other }
{
    match rule {
        EntailRule::Id => Way::Matched(logic::ID),
        EntailRule::Cut => Way::Matched(logic::CUT),
        EntailRule::TrueIn => Way::Matched(logic::TRUE_IN),
        EntailRule::FalseOut => Way::Matched(logic::FALSE_OUT),
        EntailRule::AndIn => Way::Matched(logic::AND_IN),
        EntailRule::AndLeft => Way::Matched(logic::AND_LEFT),
        EntailRule::AndRight => Way::Matched(logic::AND_RIGHT),
        EntailRule::OrLeft => Way::Matched(logic::OR_LEFT),
        EntailRule::OrRight => Way::Matched(logic::OR_RIGHT),
        EntailRule::OrOut => Way::Matched(logic::OR_OUT),
        EntailRule::ImpIn => Way::Matched(logic::IMP_IN),
        EntailRule::ImpOut => Way::Matched(logic::IMP_OUT),
        EntailRule::NotIn => Way::Matched(logic::NOT_IN),
        EntailRule::NotOut => Way::Matched(logic::NOT_OUT),
        EntailRule::Classical => Way::Matched(logic::CLASSICAL),
        EntailRule::ForallIn => Way::Matched(logic::FORALL_IN),
        EntailRule::ForallOut => Way::Matched(logic::FORALL_OUT),
        EntailRule::ExistsIn => Way::Matched(logic::EXISTS_IN),
        EntailRule::ExistsOut => Way::Matched(logic::EXISTS_OUT),
        EntailRule::EqRefl => Way::Matched(logic::EQ_REFL),
        EntailRule::EqSubst => Way::Computed(Computed::EqSubst),
        EntailRule::Distinct => Way::Computed(Computed::Distinct),
        EntailRule::IntTotal => Way::Matched(logic::INT_TOTAL),
        EntailRule::Linear => Way::Computed(Computed::Linear),
        EntailRule::Concat => Way::Computed(Computed::Concat),
        EntailRule::StarAssoc => Way::Matched(structure::STAR_ASSOC),
        EntailRule::StarAssocBack => Way::Matched(structure::STAR_ASSOC_BACK),
        EntailRule::StarLeftAssoc => Way::Matched(structure::STAR_LEFT_ASSOC),
        EntailRule::StarLeftAssocBack => Way::Matched(structure::STAR_LEFT_ASSOC_BACK),
        EntailRule::StarRightAssoc => Way::Matched(structure::STAR_RIGHT_ASSOC),
        EntailRule::StarRightAssocBack => Way::Matched(structure::STAR_RIGHT_ASSOC_BACK),
        EntailRule::StarMidAssoc => Way::Matched(structure::STAR_MID_ASSOC),
        EntailRule::StarMidAssocBack => Way::Matched(structure::STAR_MID_ASSOC_BACK),
        EntailRule::StarUnit => Way::Matched(structure::STAR_UNIT),
        EntailRule::StarUnitBack => Way::Matched(structure::STAR_UNIT_BACK),
        EntailRule::UnitStar => Way::Matched(structure::UNIT_STAR),
        EntailRule::UnitStarBack => Way::Matched(structure::UNIT_STAR_BACK),
        EntailRule::StarLeftUnit => Way::Matched(structure::STAR_LEFT_UNIT),
        EntailRule::StarLeftUnitBack => Way::Matched(structure::STAR_LEFT_UNIT_BACK),
        EntailRule::StarRightUnit => Way::Matched(structure::STAR_RIGHT_UNIT),
        EntailRule::StarRightUnitBack => Way::Matched(structure::STAR_RIGHT_UNIT_BACK),
        EntailRule::PlusAssoc => Way::Matched(structure::PLUS_ASSOC),
        EntailRule::PlusAssocBack => Way::Matched(structure::PLUS_ASSOC_BACK),
        EntailRule::PlusComm => Way::Matched(structure::PLUS_COMM),
        EntailRule::PlusUnit => Way::Matched(structure::PLUS_UNIT),
        EntailRule::PlusUnitBack => Way::Matched(structure::PLUS_UNIT_BACK),
        EntailRule::PlusLeftAssoc => Way::Matched(structure::PLUS_LEFT_ASSOC),
        EntailRule::PlusLeftAssocBack => Way::Matched(structure::PLUS_LEFT_ASSOC_BACK),
        EntailRule::PlusLeftUnit => Way::Matched(structure::PLUS_LEFT_UNIT),
        EntailRule::PlusLeftUnitBack => Way::Matched(structure::PLUS_LEFT_UNIT_BACK),
        EntailRule::MonoStar => Way::Matched(monotony::MONO_STAR),
        EntailRule::MonoStarLeft => Way::Matched(monotony::MONO_STAR_LEFT),
        EntailRule::MonoStarRight => Way::Matched(monotony::MONO_STAR_RIGHT),
        EntailRule::MonoPlus => Way::Matched(monotony::MONO_PLUS),
        EntailRule::MonoPlusLeft => Way::Matched(monotony::MONO_PLUS_LEFT),
        EntailRule::MonoNode => Way::Matched(monotony::MONO_NODE),
        EntailRule::MonoTree => Way::Matched(monotony::MONO_TREE),
        EntailRule::MonoRoot => Way::Matched(monotony::MONO_ROOT),
        EntailRule::MonoApp => Way::Matched(monotony::MONO_APP),
        EntailRule::MonoHoleAdj => Way::Matched(monotony::MONO_HOLE_ADJ),
        EntailRule::MonoCtxAdj => Way::Matched(monotony::MONO_CTX_ADJ),
        EntailRule::PureOut => Way::Matched(monotony::PURE_OUT),
        EntailRule::PureIn => Way::Matched(monotony::PURE_IN),
        EntailRule::HoleLeft => Way::Matched(contexts::HOLE_LEFT),
        EntailRule::HoleLeftBack => Way::Matched(contexts::HOLE_LEFT_BACK),
        EntailRule::HoleRight => Way::Matched(contexts::HOLE_RIGHT),
        EntailRule::HoleRightBack => Way::Matched(contexts::HOLE_RIGHT_BACK),
        EntailRule::AppAssoc => Way::Matched(contexts::APP_ASSOC),
        EntailRule::AppAssocBack => Way::Matched(contexts::APP_ASSOC_BACK),
        EntailRule::AppNode => Way::Matched(contexts::APP_NODE),
        EntailRule::AppNodeBack => Way::Matched(contexts::APP_NODE_BACK),
        EntailRule::AppTree => Way::Matched(contexts::APP_TREE),
        EntailRule::AppTreeBack => Way::Matched(contexts::APP_TREE_BACK),
        EntailRule::AppRoot => Way::Matched(contexts::APP_ROOT),
        EntailRule::AppRootBack => Way::Matched(contexts::APP_ROOT_BACK),
        EntailRule::AppStarLeft => Way::Matched(contexts::APP_STAR_LEFT),
        EntailRule::AppStarLeftBack => Way::Matched(contexts::APP_STAR_LEFT_BACK),
        EntailRule::AppStarRight => Way::Matched(contexts::APP_STAR_RIGHT),
        EntailRule::AppStarRightBack => Way::Matched(contexts::APP_STAR_RIGHT_BACK),
        EntailRule::AppPlus => Way::Matched(contexts::APP_PLUS),
        EntailRule::AppPlusBack => Way::Matched(contexts::APP_PLUS_BACK),
        EntailRule::HoleAdjIn => Way::Matched(contexts::HOLE_ADJ_IN),
        EntailRule::HoleAdjOut => Way::Matched(contexts::HOLE_ADJ_OUT),
        EntailRule::CtxAdjIn => Way::Matched(contexts::CTX_ADJ_IN),
        EntailRule::CtxAdjOut => Way::Matched(contexts::CTX_ADJ_OUT),
        EntailRule::AppExistsPart => Way::Matched(contexts::APP_EXISTS_PART),
        EntailRule::AppExistsCtx => Way::Matched(contexts::APP_EXISTS_CTX),
        EntailRule::AppOrPart => Way::Matched(contexts::APP_OR_PART),
        EntailRule::AppOrCtx => Way::Matched(contexts::APP_OR_CTX),
        EntailRule::Some => Way::Matched(contexts::SOME),
        EntailRule::CancelApp => Way::Matched(contexts::CANCEL_APP),
        EntailRule::CancelLeft => Way::Matched(contexts::CANCEL_LEFT),
        EntailRule::CancelRight => Way::Matched(contexts::CANCEL_RIGHT),
        EntailRule::CancelPlus => Way::Matched(contexts::CANCEL_PLUS),
        EntailRule::IsIn => Way::Matched(contexts::IS_IN),
        EntailRule::IsOut => Way::Matched(contexts::IS_OUT),
        EntailRule::IsMono => Way::Matched(contexts::IS_MONO),
        EntailRule::NodeAnd => Way::Matched(nodes::NODE_AND),
        EntailRule::TreeAnd => Way::Matched(nodes::TREE_AND),
        EntailRule::RootAnd => Way::Matched(nodes::ROOT_AND),
        EntailRule::NodeSome => Way::Matched(nodes::NODE_SOME),
        EntailRule::NotNull => Way::Matched(nodes::NOT_NULL),
        EntailRule::ApartStar => Way::Matched(nodes::APART_STAR),
        EntailRule::ApartPlus => Way::Matched(nodes::APART_PLUS),
        EntailRule::ApartUp => Way::Matched(nodes::APART_UP),
        EntailRule::ForestCases => Way::Matched(nodes::FOREST_CASES),
        EntailRule::GroveCases => Way::Matched(nodes::GROVE_CASES),
        EntailRule::EmptyStar => Way::Matched(nodes::EMPTY_STAR),
        EntailRule::EmptyPlus => Way::Matched(nodes::EMPTY_PLUS),
        EntailRule::TreeFull => Way::Matched(nodes::TREE_FULL),
        EntailRule::RootFull => Way::Matched(nodes::ROOT_FULL),
        EntailRule::Head => Way::Matched(nodes::HEAD),
        EntailRule::Last => Way::Matched(nodes::LAST),
        EntailRule::LenEmpty => Way::Matched(nodes::LEN_EMPTY),
        EntailRule::LenZero => Way::Matched(nodes::LEN_ZERO),
        EntailRule::LenTree => Way::Matched(nodes::LEN_TREE),
        EntailRule::LenStar => Way::Matched(nodes::LEN_STAR),
        EntailRule::LenSome => Way::Matched(nodes::LEN_SOME),
        EntailRule::LenUnique => Way::Matched(nodes::LEN_UNIQUE),
        EntailRule::LenNonneg => Way::Matched(nodes::LEN_NONNEG),
    }
}
