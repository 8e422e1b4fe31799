//! How many constants an IN may have.

ghost use Rattle.std.specs.Prelude.{◌≡◌};
ghost use Rattle.std.specs.List.{list_all};
ghost use Rattle.metadata.specs.Options as spec;
ghost use Rattle.sql_tokens.specs.Values.{decimal};

use sql_reader::tree::Constant;
use vdb_base::Value;

/// The most that the option may say.
const IN_LIMIT: u32 = 1000;

fn in_size(n: u32) -> Option<u32>
    ensures { result ≡ spec.in_size n }
{
    if 1 <= n && n <= IN_LIMIT {
        Some(n)
    } else {
        None
    }
}

fn numeral_size(n: i128) -> Option<u32>
    ensures { result ≡ spec.numeral_size n }
{
    if 1 <= n && n <= 1000 {
        Some(n as u32)
    } else {
        None
    }
}

fn is_digit(byte: u8) -> bool
    ensures { result ≡ spec.is_digit byte }
{
    b'0' <= byte && byte <= b'9'
}

fn are_digits(bytes: &[u8]) -> bool
    ensures { result ≡ spec.are_digits bytes.now }
{
    for byte in bytes {
        if !is_digit(*byte) {
            return false;
        }
    }
    1 <= bytes.len()
}

/// The size that digits say; what is past the limit needn't be kept whole.
fn digits_size(bytes: &[u8]) -> Option<u32>
    ensures { result ≡ spec.in_size (decimal 0 bytes.now) }
{
    let mut n: u32 = 0;
    for byte in bytes {
        let digit = u32::from(byte.saturating_sub(b'0'));
        n = (n * 10 + digit).min(IN_LIMIT + 1);
    }
    in_size(n)
}

/// The size that the option says.
pub(crate) fn in_size_of(constant: &Constant) -> Option<u32>
    ensures { result ≡ spec.in_size_of constant.now }
{
    match constant {
        Constant::Value(Value::Null) => None,
        Constant::Value(Value::Bool(_)) => None,
        Constant::Value(Value::Num(n)) => numeral_size(*n),
        Constant::Value(Value::Str(text)) => {
            if are_digits(text.as_bytes()) {
                digits_size(text.as_bytes())
            } else {
                None
            }
        }
        Constant::Fraction => None,
        Constant::TooLong => None,
    }
}
