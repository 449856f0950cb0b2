//! Bytes and numbers at the front of a text.
ghost use Rattle.std.specs.Prelude.{◌≡◌, ℕ, ◌+◌, ◌<◌, ◌∷◌, ◌++◌, IfSome, decimal};
ghost use Rattle.notation.specs.Written.{sign_text};

use terms::Sign;

/// What follows the byte, where the text begins with it.
pub(crate) fn after(text: &[u8], byte: u8) -> Option<&[u8]>
    ensures { IfSome result (λ rest. text.now ≡ byte ∷ rest.now) }
{
    text.strip_prefix(&[byte])
}

/// A decimal digit at the front of the text, and what follows it.
fn digit(text: &[u8]) -> Option<(u8, &[u8])>
    ensures { IfSome result (λ p. (p.0 < 10) × (text.now ≡ (48 + p.0) ∷ p.1.now)) }
{
    match text {
        [first @ b'0'..=b'9', rest @ ..] => Some((*first - b'0', rest)),
        _ => None,
    }
}

/// A number below 256 at the front of the text, without leading zeros, and what follows it.
pub(crate) fn number(text: &[u8]) -> Option<(u8, &[u8])>
    ensures { IfSome result (λ p. text.now ≡ decimal p.0 ++ p.1.now) }
{
    let (first, rest) = digit(text)?;
    if first == 0 {
        return Some((first, rest));
    }
    let Some((second, more)) = digit(rest) else {
        return Some((first, rest));
    };
    let two = first * 10 + second;
    let Some((third, last)) = digit(more) else {
        return Some((two, more));
    };
    let three = two.checked_mul(10)?.checked_add(third)?;
    Some((three, last))
}

/// The sign at the front of the text, with a space on both sides, and what follows it.
pub(crate) fn sign(text: &[u8]) -> Option<(Sign, &[u8])>
    ensures { IfSome result (λ p. text.now ≡ sign_text p.0 ++ p.1.now) }
{
    if let Some(rest) = text.strip_prefix(b" = ") {
        return Some((Sign::Equal, rest));
    }
    let rest = text.strip_prefix(b" # ")?;
    Some((Sign::Different, rest))
}
