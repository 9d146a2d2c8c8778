// The digits that bytes begin with, and the number, rounded to whole thousandths.
#![tactic(auto)]

ghost use Rattle.std.specs.Prelude.{◌≡◌, true, ◌+◌, ◌-◌, ◌*◌, ◌%◌, ◌^◌, ◌≤◌, ◌<◌, eqb, length, IfOk, IfErr};
ghost use Rattle.label.specs.Bytes.{is_digit};
ghost use Rattle.label.specs.Entry.{nearest, scaled};
ghost use Rattle.label.specs.Requests.RoundedCount.{is_whole};
ghost use Rattle.number.specs.Digits.{cap, head_of, pushed, digits_from};
ghost use Rattle.number.specs.Numbers.{sized, Small, mantissa_of, cut_mantissa, sign_length, exponent_of, cut_exponent, number_of, by_form, formed};

use label::Limits;

// ── digits ──

// The digits that bytes begin with: how many, and their value, cut at 10^18.
#[derive(Clone, Copy)]
pub struct Digits {
    pub count: usize,
    pub value: u64,
}

const CAP: u64 = 1_000_000_000_000_000_000;

// One more digit behind v. A value that is cut stays above every limit, so who compares it needs no case for it.
fn push_digit(v: u64, b: u8) -> u64
    requires { (v ≤ cap) × (is_digit b ≡ true) }
    ensures { result ≡ pushed v b }
{
    (v * 10 + u64::from(b - b'0')).min(CAP)
}

// The digits that s begins with, read behind `start`.
pub fn digits_of(s: &[u8], start: u64) -> Digits
    requires { start ≤ cap }
    ensures value { result ≡ digits_from start s.now }
    ensures bounds { (result.count ≤ length s.now) × (result.value ≤ cap) }
{
    let mut value = start;
    for (count, b) in s.iter().enumerate() {
        if !b.is_ascii_digit() {
            return Digits { count, value };
        }
        value = push_digit(value, *b);
    }
    Digits {
        count: s.len(),
        value,
    }
}

// ── values ──

// Whole thousandths within the limit, and whether the exact value is this one.
// That they are within it is a clause of `number_of` and no field of this: the definitions (`sized`) make such values from a number alone.
#[derive(Clone, Copy)]
pub struct Thousandths {
    pub count: u32,
    pub exact: bool,
}

// This many thousandths; none above the limit.
fn limited(count: u64, exact: bool) -> Option<Thousandths>
    ensures { result ≡ sized count exact }
{
    if Limits::THOUSANDTHS < count {
        return None;
    }
    Some(Thousandths {
        count: count as u32,
        exact,
    })
}

// m × 10^k
fn grown(m: u64, k: usize) -> Option<Thousandths>
    ensures { result ≡ sized (m * 10 ^ k) true }
{
    if m == 0 {
        return limited(0, true);
    }
    if 9 < k || Limits::THOUSANDTHS < m {
        return None;
    }
    limited(m * 10u64.pow(k as u32), true)
}

// m / 10^k, rounded: the one place where a value is rounded, by its quotient and its remainder. More than a half goes up, and a half where the quotient is
// odd: what remains is held against what it lacks to the divisor. The value is exact where nothing remains.
fn shrunk(m: u64, k: usize) -> Option<Thousandths>
    ensures { result ≡ sized (nearest m (10 ^ k)) (eqb (m % 10 ^ k) 0) }
{
    if 19 < k {
        return limited(0, m == 0);
    }
    let d = 10u64.pow(k as u32);
    let q = m / d;
    let r = m % d;
    let exact = r == 0;
    if d - r < r + q % 2 {
        limited(q + 1, exact)
    } else {
        limited(q, exact)
    }
}

// m × 10^up / 10^down, rounded.
fn shifted(m: u64, up: usize, down: usize) -> Option<Thousandths>
    ensures { result ≡ sized (nearest (m * 10 ^ up) (10 ^ down)) (eqb (m * 10 ^ up % 10 ^ down) 0) }
{
    if down <= up {
        grown(m, up - down)
    } else {
        shrunk(m, down - up)
    }
}

// ── numbers ──

// The digits before any exponent: whether they are well formed, the bytes used, the count of digits, their value, and the count behind the point. Each part
// says how many bytes it has, as the definitions do; that they are among those it was read from is a clause, as a part does not hold these. What is not well
// formed has bytes and digits too, as the number around it has its bytes and its size, so `ok` stands beside them.
#[derive(Clone, Copy)]
struct Mantissa {
    ok: bool,
    used: usize,
    count: usize,
    value: u64,
    behind: usize,
}

// The exponent, of no bytes where there is none.
#[derive(Clone, Copy)]
struct Exponent {
    ok: bool,
    used: usize,
    negative: bool,
    count: usize,
    value: u64,
}

// A number, of `used` bytes; its size where that is within the limit.
#[derive(Clone, Copy)]
pub struct Number {
    pub used: usize,
    pub size: Option<Thousandths>,
}

// The digits before any exponent.
fn mantissa_of(s: &[u8]) -> Mantissa
    ensures value { result ≡ cut_mantissa (mantissa_of s.now) }
    ensures bounds { result.used ≤ length s.now }
{
    let whole = digits_of(s, 0);
    if s.get(whole.count) == Some(&b'.') {
        let part = digits_of(&s[whole.count + 1..], whole.value);
        Mantissa {
            ok: 0 < part.count,
            used: whole.count + 1 + part.count,
            count: whole.count + part.count,
            value: part.value,
            behind: part.count,
        }
    } else {
        Mantissa {
            ok: 0 < whole.count,
            used: whole.count,
            count: whole.count,
            value: whole.value,
            behind: 0,
        }
    }
}

// How many bytes the sign has that s begins with: none where there is none.
pub fn sign_length(s: &[u8]) -> usize
    ensures value { result ≡ sign_length (head_of s.now) }
    ensures bounds { (result ≤ 1) × (result ≤ length s.now) }
{
    usize::from(matches!(s.first(), Some(b'+' | b'-')))
}

// The exponent. A missing one is read as 0 of no digits, so the value needs no case for it.
fn exponent_of(s: &[u8]) -> Exponent
    ensures value { result ≡ cut_exponent (exponent_of s.now) }
    ensures bounds { result.used ≤ length s.now }
{
    if !matches!(s.first(), Some(b'e' | b'E')) {
        return Exponent {
            ok: true,
            used: 0,
            negative: false,
            count: 0,
            value: 0,
        };
    }
    let behind = &s[1..];
    let sign = sign_length(behind);
    let digits = digits_of(&behind[sign..], 0);
    Exponent {
        ok: 0 < digits.count,
        used: 1 + sign + digits.count,
        negative: behind.first() == Some(&b'-'),
        count: digits.count,
        value: digits.value,
    }
}

// m × 10^(e − f) × 1000, rounded. `number_of` asks the limits on digits first, so what is required here is of this call and not of every mantissa.
fn to_thousandths(m: Mantissa, x: Exponent) -> Option<Thousandths>
    requires { (m.behind ≤ 18) × (x.value ≤ 99) }
    ensures { result ≡ sized (scaled m.value m.behind x.negative x.value) (is_whole m.value m.behind x.negative x.value) }
{
    let e = x.value as usize;
    let (up, down) = if x.negative {
        (3, m.behind + e)
    } else {
        (e + 3, m.behind)
    };
    shifted(m.value, up, down)
}

// A number, or, where it is not well formed, what stands in its place.
fn formed(ok: bool, number: Number) -> Result<Number, Number>
    ensures { result ≡ by_form ok number }
{
    if ok { Ok(number) } else { Err(number) }
}

// The number that s begins with; where that is not well formed, the bytes and the size of what stands in its place.
pub fn number_of(s: &[u8]) -> Result<Number, Number>
    ensures value { result ≡ formed (number_of s.now) }
    ensures bounds { IfOk result (λ n. n.used ≤ length s.now) × IfErr result (λ n. n.used ≤ length s.now) }
    ensures small { IfOk result (λ n. Small n.size) × IfErr result (λ n. Small n.size) }
{
    let m = mantissa_of(s);
    let x = exponent_of(&s[m.used..]);
    let ok = m.ok && x.ok;
    let used = m.used + x.used;
    if Limits::DIGITS < m.count || Limits::EXPONENT_DIGITS < x.count {
        return formed(ok, Number { used, size: None });
    }
    let size = to_thousandths(m, x);
    formed(ok, Number { used, size })
}
