//! The rules of entailment as patterns. Promises that the patterns are the rows of rule_table.
//! Stands on rule_table.
#![tactic(auto)]

ghost use Rattle.std.specs.Prelude.{◌≡◌, List};
ghost use Rattle.model_shapes.specs.Values.{Name};
ghost use Rattle.rule_table.specs.Table.{entailments};
ghost use Rattle.rule_table.specs.Verdicts.{readings_in};
ghost use Rattle.rule_patterns.specs.Patterns.{LinePattern, rows_of};
ghost use Rattle.rule_patterns.specs.Ways.{matched, way_of};

/// The patterns of a rule of entailment are its rows.
pub fn the_patterns_are_the_rows()
    ensures { (name : Name) (patterns : List LinePattern) → way_of name ≡ matched patterns
        → rows_of patterns ≡ readings_in entailments name }
{}
