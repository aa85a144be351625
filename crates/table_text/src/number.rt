// A whole number in decimal, read from a word.

ghost use Rattle.std.specs.Prelude.{◌≡◌};
ghost use Rattle.std.proofs.Math.Option.{some};
ghost use Rattle.table_text.specs.Parse as Parse;
ghost use Rattle.table_text.specs.Answers.{natural_answer, number_answer, digits_answer};

// No number is above 2^31 with its sign left out.
const BOUND: u64 = 2147483648;

// The number of these digits; of none, 0.
fn read_digits(word: &[u8]) -> Option<u64>
    ensures { result ≡ digits_answer 0 word.now }
{
    let mut value: u64 = 0;
    for &b in word {
        if !b.is_ascii_digit() {
            return None;
        }
        value = 10 * value + u64::from(b - b'0');
        if BOUND < value {
            return None;
        }
    }
    Some(value)
}

// At least one digit, and the first of several is not 0.
fn read_natural(word: &[u8]) -> Option<u64>
    ensures { result ≡ natural_answer (Parse.natural word.now) }
{
    if word.len() == 0 {
        return None;
    }
    if word.len() == 1 {
        return read_digits(word);
    }
    if word[0] == b'0' {
        return None;
    }
    read_digits(word)
}

// -n, for n from 1 to 2^31.
fn negated(n: u64) -> Option<i32>
    ensures { result ≡ number_answer (Parse.negative (some n)) }
{
    if n == 0 || BOUND < n {
        return None;
    }
    Some(-(n as i64) as i32)
}

fn unsigned(n: u64) -> Option<i32>
    ensures { result ≡ number_answer (Parse.non_negative (some n)) }
{
    i32::try_from(n).ok()
}

// The 32-bit number that a word is: no plus sign, no leading zeros, no "-0".
pub(crate) fn read_number(word: &[u8]) -> Option<i32>
    ensures { result ≡ number_answer (Parse.number word.now) }
{
    if word.len() == 0 {
        return None;
    }
    if word[0] == b'-' {
        let size = read_natural(&word[1..])?;
        negated(size)
    } else {
        let value = read_natural(word)?;
        unsigned(value)
    }
}
