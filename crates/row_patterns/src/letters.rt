// The letters of the rows, by kind.
/// A letter for formulas; K and H stand at context sorts.
#[derive(Clone, Copy, PartialEq, Eq)]
pub enum FormulaLetter {
    P,
    Q,
    R,
    A,
    B,
    K,
    H,
}

/// A letter for terms.
#[derive(Clone, Copy, PartialEq, Eq)]
pub enum TermLetter {
    E,
    F,
    S,
    I,
    L,
    T,
    J,
    M,
    G,
    V,
    Y,
    N,
}

/// A letter for data sorts.
#[derive(Clone, Copy, PartialEq, Eq)]
pub enum DataLetter {
    H,
    K,
    J,
}
