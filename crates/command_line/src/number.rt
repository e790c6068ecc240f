//! Numbers as words of the command line.
ghost use Rattle.std.specs.Char.{is_ascii_digit};
ghost use Rattle.std.specs.List.{list_all};
ghost use Rattle.std.specs.Option.{ForSome};
ghost use Rattle.std.specs.Prelude.{◌≡◌, ◌≤◌};
ghost use Rattle.command_line.specs.Number.{is_numeral, number_in};

/// The most digits of a number, leading zeros among them.
const MAX_DIGITS: usize = 20;

/// The number that a text writes in 1 to 20 decimal digits, if it is one from `least` to `most`.
pub(crate) fn number_in(text: &str, least: u64, most: u64) -> Option<u64>
    ensures value { result ≡ number_in least most text.now }
    ensures within { ForSome result (λ n. (least ≤ n) × (n ≤ most)) }
{
    if !is_numeral(text) {
        return None;
    }
    let Ok(number) = text.parse::<u64>() else {
        return None;
    };
    if number < least || number > most {
        return None;
    }
    Some(number)
}

/// Whether a text is 1 to 20 decimal digits.
fn is_numeral(text: &str) -> bool
    ensures { result ≡ is_numeral text.now }
{
    let digits = text.as_bytes();
    !digits.is_empty() && digits.len() <= MAX_DIGITS && are_digits(digits)
}

/// Whether all are decimal digits.
fn are_digits(bytes: &[u8]) -> bool
    ensures { result ≡ list_all is_ascii_digit bytes.now }
{
    bytes.iter().all(|byte| byte.is_ascii_digit())
}
