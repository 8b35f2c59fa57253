//! Lines of decimal columns: each number stands at the right of its column, with spaces before it.
ghost use Rattle.std.specs.Prelude.{◌≡◌, ◌-◌, true, ◌++◌, length, replicate, nat_le, decimal, if◌then◌else◌, Some, None};
ghost use Rattle.store.specs.Columns.{column, line_of, fits_column, fits_line, trimmed, are_digits, read_on, column_number, line_numbers, OneLine};

use itoa::Buffer;

// The bytes from the first on that is no space.
#[tactic(auto, using(crate::proofs::Numbers::trimmed_other, crate::proofs::Reading::trimmed_space))]
fn after_spaces(mut text: &[u8]) -> &[u8]
    ensures { result.now ≡ trimmed text.now }
{
    while let [b' ', rest @ ..] = text {
        text = rest;
    }
    text
}

// The number that digits write, where all bytes are digits and it fits.
// No `parse`, which reads a `str`: to look whether bytes are one takes longer than to read their digits.
fn read_digits(text: &[u8]) -> Option<u64>
    ensures { result ≡ (if are_digits text.now then Some (read_on 0 text.now) else None) }
{
    let mut number: u64 = 0;
    for byte in text {
        let digit = char::from(*byte).to_digit(10)?;
        number = number.checked_mul(10)?.checked_add(digit.into())?;
    }
    Some(number)
}

/// The number in a column: spaces, if any, and then a decimal number below 2^64,
/// with no zero in front but in 0 itself.
pub fn read_column(text: &[u8]) -> Option<u64>
    ensures { result ≡ column_number text.now }
{
    match after_spaces(text) {
        [] | [b'0', _, ..] => None,
        numeral => read_digits(numeral),
    }
}

// Puts digits at the right of a column, with spaces before them, and says whether they fit.
fn put_digits(out: &mut [u8], digits: &[u8]) -> bool
    ensures said { result ≡ nat_le (length digits.now) (length out.old) }
    ensures written { out.new
        ≡ (if result then replicate (length out.old - length digits.now) 32 ++ digits.now else out.old) }
{
    if out.len() < digits.len() {
        return false;
    }
    let start = out.len() - digits.len();
    let (spaces, column) = out.split_at_mut(start);
    spaces.fill(b' ');
    column.copy_from_slice(digits);
    true
}

// Puts a number at the right of a column, as `write_column` does. It stays a call of its own: laid into `write_column`, it
// would have short numbers set up this buffer too.
#[inline(never)]
fn put_number(out: &mut [u8], number: u64) -> bool
    ensures said { result ≡ fits_column (length out.old) number }
    ensures written { out.new
        ≡ (if result then column (length out.old) number else out.old) }
{
    put_digits(out, Buffer::new().format(number).as_bytes())
}

/// Writes a number at the right of a column, with spaces before it, and says whether it fits.
/// A column that it does not fit is left as it was.
#[tactic(auto, using(std::proofs::lemmas::Fmt::decimal_digit, crate::proofs::Numbers::decimal_two))]
pub fn write_column(out: &mut [u8], number: u64) -> bool
    ensures said { result ≡ fits_column (length out.old) number }
    ensures written { out.new
        ≡ (if result then column (length out.old) number else out.old) }
{
    // short numbers by themselves, since each unused word of a page is 0, and a buffer takes longer to set up
    match number {
        0..=9 => put_digits(out, &[b'0' + number as u8]),
        10..=99 => put_digits(
            out,
            &[b'0' + (number / 10) as u8, b'0' + (number % 10) as u8],
        ),
        _ => put_number(out, number),
    }
}

/// The numbers in a line of columns of these widths, which ends with a newline and has nothing behind it.
// `one_line` is a theorem: each public function that it is about names it, here and below.
#[tactic(auto, using(crate::proofs::Lines::one_line))]
pub fn read_line<const N: usize>(widths: &[usize; N], line: &[u8]) -> Option<[u64; N]>
    ensures numbers { result ≡ line_numbers widths.now line.now }
    ensures one_line { OneLine }
{
    let mut numbers = [0; N];
    let mut rest = line;
    // `numbers.iter_mut().zip(widths)` would lend the numbers, and leave the proof nothing of them but their count
    for (i, width) in widths.iter().enumerate() {
        let (column, behind) = rest.split_at_checked(*width)?;
        numbers[i] = read_column(column)?;
        rest = behind;
    }
    matches!(rest, [b'\n']).then_some(numbers)
}

// How many digits a number has. One digit is told before the logarithm, which takes longer.
#[tactic(auto, using(std::proofs::lemmas::Fmt::decimal_digit, crate::proofs::Numbers::length_decimal_power))]
fn digit_count(number: u64) -> usize
    ensures { result ≡ length (decimal number) }
{
    if number < 10 {
        return 1;
    }
    number.ilog10() as usize + 1
}

// Slices beside each other and no arrays of one length: a number too few is refused, and not ruled out by a type.
// Whether there is a number for each width, which fits it, and the line is just as long as the room for it.
#[tactic(auto, using(crate::proofs::Fitting::lengths_differ))]
fn fits_line(widths: &[usize], numbers: &[u64], room: usize) -> bool
    ensures { result ≡ fits_line widths.now numbers.now room }
{
    if widths.len() != numbers.len() {
        return false;
    }
    let mut left = room;
    for (width, number) in widths.iter().zip(numbers) {
        if left < *width || *width < digit_count(*number) {
            return false;
        }
        left -= *width;
    }
    left == 1
}

// Writes a line of columns into a slice that is just as long.
fn put_columns(widths: &[usize], numbers: &[u64], out: &mut [u8])
    requires { fits_line widths.now numbers.now (length out.old) ≡ true }
    ensures { out.new ≡ line_of widths.now numbers.now }
{
    // by the place of each column: a loop that moves a `&mut` on to what is behind would leave the proof nothing of `out`
    let mut at = 0;
    for (i, width) in widths.iter().enumerate() {
        let end = at + *width;
        write_column(&mut out[at..end], numbers[i]);
        at = end;
    }
    out[at] = b'\n';
}

/// Writes a line of columns of these widths, one for each number, and says whether it could: the numbers fit
/// their columns, there are as many as columns, and `out` is just as long as the line. Else `out` is left as it was.
#[tactic(auto, using(crate::proofs::Lines::one_line))]
pub fn write_line(widths: &[usize], numbers: &[u64], out: &mut [u8]) -> bool
    ensures said { result ≡ fits_line widths.now numbers.now (length out.old) }
    ensures written { out.new
        ≡ (if result then line_of widths.now numbers.now else out.old) }
    ensures one_line { OneLine }
{
    if !fits_line(widths, numbers, out.len()) {
        return false;
    }
    put_columns(widths, numbers, out);
    true
}
