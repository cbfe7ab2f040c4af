// The texts that literals stand for, from those that are written.
ghost use Rattle.std.specs.Prelude.{◌≡◌, ◌-◌, take, drop, false, length, encode_utf8_all, nat_le};
ghost use Rattle.model_text.specs.Tokens.{unescaped};

use dom_terms::limits::TEXT_BYTES;

/// What stands between the quotes of a literal.
#[inline(always)]
pub fn between_quotes<C>(own: &[C]) -> &[C]
    ensures { result.now ≡ take (length own.now - 2) (drop 1 own.now) }
{
    match own {
        [_, inside @ .., _] => inside,
        _ => &[],
    }
}

/// Whether the text that the bytes between the quotes of a literal stand for, each as the character
/// of its number, has no more bytes than the most of a text.
pub fn is_written_within(inside: &[u8]) -> bool
    ensures { result ≡ nat_le (length (encode_utf8_all (unescaped false inside.now))) TEXT_BYTES }
{
    let mut escaped = false;
    let mut found = 0;
    for byte in inside {
        if *byte == b'\\' && !escaped {
            escaped = true;
            continue;
        }
        let meant = if escaped && *byte == b'n' {
            '\n'
        } else {
            *byte as char
        };
        found += meant.len_utf8();
        if found > TEXT_BYTES {
            return false;
        }
        escaped = false;
    }
    true
}
