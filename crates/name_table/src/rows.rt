// Rows of a few names, each with a value, that are walked from the first on.
ghost use Rattle.std.specs.Prelude.{◌≡◌, bytes_eq};
ghost use Rattle.std.specs.Bool.{OnTrue};
ghost use Rattle.std.specs.List.{position_or_len};

// Whether the bytes are one or two, and the same.
#[inline(always)]
fn are_few_and_same(left: &[u8], right: &[u8]) -> bool
    ensures { OnTrue result (left.now ≡ right.now) }
{
    match (left, right) {
        ([first], [other]) => first == other,
        ([first, last], [other, other_last]) => first == other && last == other_last,
        _ => false,
    }
}

// Whether the names are the same, byte by byte. It isn't inlined, so that the walk over a row keeps
// nothing in memory for it.
#[inline(never)]
fn same_bytes(left: &str, right: &str) -> bool
    ensures { result ≡ bytes_eq left.now right.now }
{
    left == right
}

// Whether the names are the same. Most that differ differ in length or in their last byte, and most
// have one letter or two.
#[inline(always)]
fn same_name(left: &str, right: &str) -> bool
    ensures { result ≡ bytes_eq left.now right.now }
{
    let (own, other) = (left.as_bytes(), right.as_bytes());
    if own.len() != other.len() || own.last() != other.last() {
        return false;
    }
    are_few_and_same(own, other) || same_bytes(left, right)
}

/// The place of the name in the row: its length where the name isn't there.
#[inline(always)]
pub(crate) fn place_of<V>(row: &[(&str, V)], name: &str) -> usize
    ensures { result ≡ position_or_len (λ e. bytes_eq name.now e.0.now) row.now }
{
    let mut place = 0;
    for (key, _) in row {
        if same_name(name, key) {
            return place;
        }
        place += 1;
    }
    place
}
