//! Numbers of millionths as text.

ghost use Rattle.std.specs.Prelude.{◌≡◌, unsigned_abs, ◌+◌, ◌++◌, ◌≤◌, ◌<◌, length, take, ◌^◌};
ghost use Rattle.std.specs.Fmt.{decimal};
ghost use Rattle.lot_num.specs.Digits.{printed, sign_of, decimals_of, last_digits, without_end_zeros};
ghost use Rattle.lot_num.specs.Round.{max_millionths};

use crate::round::rounded_to;

/// Writes `v` millionths as text into the first bytes of `out`, rounded to `digits` decimals as
/// [`rnd_div`](crate::rnd_div) rounds, and returns the length of the text. The bytes after the text are not specified.
///
/// `v` is in range, and `digits` is at most 6. The text is a `-` where the rounded number is below 0, the whole part,
/// and, where the decimals are not all 0, a point and the decimals without zeros at the end: `-11_038_499` with 3
/// digits is `-11.038`, and `-499` is `0`.
pub fn print_fx(v: i64, digits: u32, out: &mut [u8; 24]) -> usize
    requires digits_small { digits ≤ 6 }
    requires in_range { unsigned_abs v ≤ max_millionths }
    ensures text { take result out.new ≡ printed v digits }
    ensures length { result ≡ length (printed v digits) }
    ensures room { result ≤ 24 }
{
    let rounded = rounded_to(v, ten_to(6 - digits));
    let size = rounded.unsigned_abs();
    let unit = ten_to(digits);
    let at = put_sign(rounded, out);
    let at = put_whole(size / unit, out, at);
    put_decimals(size % unit, digits as usize, out, at)
}

// The parts of the text. Each call writes one after the first `at` bytes, and returns where it ends.

fn put_sign(n: i64, out: &mut [u8]) -> usize
    requires { 0 < length out.old }
    ensures text { take result out.new ≡ sign_of n }
    ensures short { result ≤ 1 }
{
    if n >= 0 {
        return 0;
    }
    out[0] = b'-';
    1
}

fn put_whole(n: u64, out: &mut [u8], at: usize) -> usize
    requires { at + length (decimal n) ≤ length out.old }
    ensures text { take result out.new ≡ take at out.old ++ decimal n }
    ensures end { result ≡ at + length (decimal n) }
{
    let end = at + digit_count(n);
    put_last_digits(n, &mut out[at..end]);
    end
}

fn put_decimals(part: u64, places: usize, out: &mut [u8], at: usize) -> usize
    requires { at + places < length out.old }
    ensures text { take result out.new ≡ take at out.old ++ decimals_of places part }
    ensures within { result ≤ length out.old }
{
    let first = at + 1;
    out[at] = b'.';
    let kept = put_trimmed(part, &mut out[first..first + places]);
    if kept == 0 { at } else { first + kept }
}

// Fills `out` with the last digits of `n`, and returns how many there are without the zeros at the end.
fn put_trimmed(n: u64, out: &mut [u8]) -> usize
    ensures text { take result out.new ≡ without_end_zeros (last_digits (length out.old) n) }
    ensures within { result ≤ length out.old }
{
    put_last_digits(n, out);
    len_without_end_zeros(out)
}

// Fills `out` with the last digits of `n`.
fn put_last_digits(n: u64, out: &mut [u8])
    ensures { out.new ≡ last_digits (length out.old) n }
{
    let mut rest = n;
    let mut at = out.len();
    while at > 0 {
        at -= 1;
        out[at] = b'0' + (rest % 10) as u8;
        rest /= 10;
    }
}

fn digit_count(n: u64) -> usize
    ensures { result ≡ length (decimal n) }
{
    let mut rest = n;
    let mut count = 1;
    while rest >= 10 {
        rest /= 10;
        count += 1;
    }
    count
}

fn len_without_end_zeros(digits: &[u8]) -> usize
    ensures text { take result digits.now ≡ without_end_zeros digits.now }
    ensures within { result ≤ length digits.now }
{
    let mut kept = digits.len();
    while kept > 0 && digits[kept - 1] == b'0' {
        kept -= 1;
    }
    kept
}

fn ten_to(exponent: u32) -> u64
    requires { exponent ≤ 6 }
    ensures value { result ≡ 10 ^ exponent }
    ensures positive { 0 < result }
{
    10u64.pow(exponent)
}
