// Rules that are read both ways.
ghost use Rattle.std.specs.Prelude.{◌≡◌};
ghost use Rattle.assistant_laws.specs.Ways.{other, read_so};
ghost use Rattle.step_filler.specs.Turns.{rule_of, way_of};

/// From the first of two formulas to the second, or back.
#[derive(Clone, Copy, Debug)]
pub(crate) enum Way {
    /// From the first to the second.
    Onward,
    /// From the second to the first.
    Backward,
}

/// A rule that is read both ways.
#[derive(Clone, Copy, Debug)]
pub(crate) enum Law {
    /// `(P * 0f)` is `P`.
    StarUnit,
    /// `(0f * P)` is `P`.
    UnitStar,
    /// `((P * Q) * R)` is `(P * (Q * R))`.
    StarAssoc,
    /// `(P + 0g)` is `P`.
    PlusUnit,
    /// `((P + Q) + R)` is `(P + (Q + R))`.
    PlusAssoc,
}

impl Way {
    /// The other way.
    pub(crate) fn other(self) -> Way
        ensures { way_of result ≡ other (way_of self) }
    {
        match self {
            Way::Onward => Way::Backward,
            Way::Backward => Way::Onward,
        }
    }
}

impl Law {
    /// The name of the rule that is read this way.
    pub(crate) fn name(self, way: Way) -> &'static str
        ensures { result.now ≡ read_so (way_of way) (rule_of self) }
    {
        match (self, way) {
            (Law::StarUnit, Way::Onward) => "star_unit",
            (Law::StarUnit, Way::Backward) => "star_unit_back",
            (Law::UnitStar, Way::Onward) => "unit_star",
            (Law::UnitStar, Way::Backward) => "unit_star_back",
            (Law::StarAssoc, Way::Onward) => "star_assoc",
            (Law::StarAssoc, Way::Backward) => "star_assoc_back",
            (Law::PlusUnit, Way::Onward) => "plus_unit",
            (Law::PlusUnit, Way::Backward) => "plus_unit_back",
            (Law::PlusAssoc, Way::Onward) => "plus_assoc",
            (Law::PlusAssoc, Way::Backward) => "plus_assoc_back",
        }
    }
}
