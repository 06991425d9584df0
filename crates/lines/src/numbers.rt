//! Numbers, as lines write them.

ghost use Rattle.std.specs.Prelude.{◌≡◌, ◌≤◌, IfSome};
ghost use Rattle.std.specs.List.{list_all};
ghost use Rattle.model.specs.Characters.{is_digit};
ghost use Rattle.model.specs.Lines.{is_numeral};
ghost use Rattle.lines.specs.Reading.{numeral_up_to};

fn are_digits(digits: &[u8]) -> bool
    ensures { result ≡ list_all is_digit digits.now }
{
    digits.iter().all(|digit| 48 <= *digit && *digit <= 57)
}

/// Whether these are digits, of which there is one and the first is no zero.
pub(crate) fn is_numeral(digits: &[u8]) -> bool
    ensures { result ≡ is_numeral digits.now }
{
    match digits {
        [] => false,
        [first, others @ ..] => 49 <= *first && *first <= 57 && are_digits(others),
    }
}

/// The number of a numeral that writes at most `most`. However long it is, no number is made that is
/// much greater.
pub(crate) fn numeral_up_to(most: usize, digits: &[u8]) -> Option<usize>
    ensures number { result ≡ numeral_up_to most digits.now }
    ensures bound { IfSome result (λ number. number ≤ most) }
{
    if !is_numeral(digits) {
        return None;
    }
    let most = most as u128;
    let mut number = 0u128;
    for digit in digits {
        if most < number {
            return None;
        }
        number = 10 * number + u128::from(digit.saturating_sub(48));
    }
    if number <= most {
        Some(number as usize)
    } else {
        None
    }
}
