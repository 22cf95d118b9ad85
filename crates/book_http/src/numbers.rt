//! Numbers in a request.

ghost use Rattle.std.specs.Prelude.{◌≡◌, ◌<◌, ◌≤◌, ◌^◌, IfSome};
ghost use Rattle.book_http.specs.Numbers as spec;

/// The number that a text of one to a given number of digits writes. It has no sign and no blank.
#[tactic(auto, unfolding(crate::specs::Numbers::decimal_value))]
pub fn decimal_value(most: usize, text: &[u8]) -> Option<u64>
    requires { most ≤ 19 }
    ensures value { result ≡ spec.decimal_value most text.now }
    ensures bound { IfSome result (λ decimal_value. decimal_value < 10 ^ most) }
{
    if text.is_empty() || most < text.len() {
        return None;
    }
    let mut decimal_value = 0;
    for digit in text {
        if !digit.is_ascii_digit() {
            return None;
        }
        decimal_value = decimal_value * 10 + u64::from(*digit - b'0');
    }
    Some(decimal_value)
}
