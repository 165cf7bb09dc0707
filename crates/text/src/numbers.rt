// Whole numbers and times.
ghost use Rattle.std.specs.Prelude.{◌≡◌, ◌*◌, ◌/◌, ◌^◌, ◌<◌, length};
ghost use Rattle.text.specs.Numbers.{digits_up_to, unsigned_of, whole_of, time_of, in_time, Sized};

use crate::flaw::Flaw;
use crate::pieces::cut;

// The number that 1 to `most` digits write.
fn digits(s: &[u8], most: usize) -> Option<u32>
    requires { most < 6 }
    ensures value { result ≡ digits_up_to most s.now }
    ensures size { Sized result most (length s.now) }
{
    if s.is_empty() || s.len() > most {
        return None;
    }
    let mut number = 0;
    for b in s {
        number = number * 10 + char::from(*b).to_digit(10)?;
    }
    Some(number)
}

// 1 to 5 digits; up to 30,000.
fn read_unsigned(s: &[u8]) -> Result<i32, Flaw>
    ensures { result ≡ unsigned_of s.now }
{
    let number = digits(s, 5).ok_or(Flaw::Form)?;
    if number > 30_000 {
        return Err(Flaw::Range);
    }
    Ok(number as i32)
}

// Perhaps '-', then 1 to 5 digits; from -30,000 to 30,000.
pub fn read_whole(s: &[u8]) -> Result<i32, Flaw>
    ensures { result ≡ whole_of s.now }
{
    match s {
        [b'-', rest @ ..] => Ok(-read_unsigned(rest)?),
        _ => read_unsigned(s),
    }
}

// `n`, written by `k` decimals, in thousandths; the fourth decimal is dropped.
fn thousandths(n: u32, k: usize) -> u32
    requires { (n < 10000) × ((0 < k) × (k < 5)) }
    ensures { result ≡ (1000 * n) / 10 ^ k }
{
    match k {
        1 => n * 100,
        2 => n * 10,
        3 => n,
        _ => n / 10,
    }
}

fn in_time(ticks: u32) -> Result<u32, Flaw>
    ensures { result ≡ in_time ticks }
{
    (ticks <= 16_000_000).then_some(ticks).ok_or(Flaw::Range)
}

// Seconds, 1 to 5 digits, then perhaps '.' and 1 to 4 decimals: in ticks of a millisecond, at most 16,000,000.
pub fn read_time(s: &[u8]) -> Result<u32, Flaw>
    ensures { result ≡ time_of s.now }
{
    let (front, rest) = cut(s, b'.');
    let seconds = digits(front, 5).ok_or(Flaw::Form)?;
    let Some(after) = rest else {
        return in_time(seconds * 1000);
    };
    let (decimals, None) = cut(after, b'.') else {
        return Err(Flaw::Form);
    };
    let n = digits(decimals, 4).ok_or(Flaw::Form)?;
    in_time(seconds * 1000 + thousandths(n, decimals.len()))
}
