// Words and numbers as text, and the line of a refusal or an excess.
#![tactic(auto)]

ghost use Rattle.std.specs.Prelude.{◌≡◌, [], ◌∷◌, ◌++◌, ◌+◌, ◌-◌, ◌≤◌, ◌<◌, nat_abs, length};
ghost use Rattle.cover_records.specs.Listing.{digit, decimal, signed, table_text, newline, refusal_text, excess_text};
ghost use Rattle.signed.specs.Range.{Small};
ghost use Rattle.cover_writer.specs.Writing.{Wrote};
ghost use Rattle.limits.specs.Limits.{most_pins, refusal_room};
ghost use Rattle.text_digits.specs.Put.{Put, hex_text};

// One byte.
pub fn put_byte(b: u8, at: usize, out: &mut [u8]) -> usize
    requires { at + 1 ≤ length out.old }
    ensures { Put 1 at (b ∷ []) out.old out.new result }
{
    out[at] = b;
    at + 1
}

// A word.
pub fn put_word(word: &[u8], at: usize, out: &mut [u8]) -> usize
    requires { at + length word.now ≤ length out.old }
    ensures { Put (length word.now) at word.now out.old out.new result }
{
    let end = at + word.len();
    out[at..end].copy_from_slice(word);
    end
}

// '0' to '9', then 'a' to 'f'.
fn digit_byte(d: usize) -> u8
    requires { d < 16 }
    ensures { result ≡ digit d }
{
    if d < 10 {
        b'0' + d as u8
    } else {
        b'a' + (d - 10) as u8
    }
}

// A number in decimal: the last digit behind the others.
pub fn put_decimal(n: usize, at: usize, out: &mut [u8]) -> usize
    requires { at + 20 ≤ length out.old }
    ensures { Put 20 at (decimal n) out.old out.new result }
{
    if n < 10 {
        let d = digit_byte(n);
        return put_byte(d, at, out);
    }
    let d = digit_byte(n % 10);
    let a = put_decimal(n / 10, at, out);
    put_byte(d, a, out)
}

// A number in decimal, led by '-' where it is negative.
fn put_signed(z: i64, at: usize, out: &mut [u8]) -> usize
    requires small { Small z }
    requires at_in_bounds { at + 21 ≤ length out.old }
    ensures { Put 21 at (signed z) out.old out.new result }
{
    let n = z.unsigned_abs() as usize;
    if z < 0 {
        let a = put_byte(b'-', at, out);
        return put_decimal(n, a, out);
    }
    put_decimal(n, at, out)
}

// k hexadecimal digits of a number, the lowest last.
fn put_hex(k: usize, mut w: u64, at: usize, out: &mut [u8]) -> usize
    requires { at + k ≤ length out.old }
    ensures { Put k at (hex_text k w) out.old out.new result }
{
    for i in (0..k).rev() {
        out[at + i] = digit_byte((w % 16) as usize);
        w /= 16;
    }
    at + k
}

// The table of a LUT with n leaves.
pub fn put_table(n: usize, w: u64, at: usize, out: &mut [u8]) -> usize
    requires { (n ≤ most_pins) × (at + 16 ≤ length out.old) }
    ensures { Put 16 at (table_text n w) out.old out.new result }
{
    let k = ((1usize << n) + 3) / 4;
    put_hex(k, w, at, out)
}

// A word and a number.
pub fn put_field(word: &[u8], n: usize, at: usize, out: &mut [u8]) -> usize
    requires { at + (length word.now + 20) ≤ length out.old }
    ensures { Put (length word.now + 20) at (word.now ++ decimal n) out.old out.new result }
{
    let a = put_word(word, at, out);
    put_decimal(n, a, out)
}

// A word and a number with its sign.
pub fn put_signed_field(word: &[u8], z: i64, at: usize, out: &mut [u8]) -> usize
    requires small { Small z }
    requires word_in_bounds { at + (length word.now + 21) ≤ length out.old }
    ensures { Put (length word.now + 21) at (word.now ++ signed z) out.old out.new result }
{
    let a = put_word(word, at, out);
    put_signed(z, a, out)
}

// A word and a number on a line, in front of the area; the bytes behind it are kept.
fn write_said(word: &[u8], n: usize, out: &mut [u8]) -> usize
    requires { (length word.now + 20) + 1 ≤ length out.old }
    ensures { Wrote ((word.now ++ decimal n) ++ newline) out.old out.new result }
{
    let a = put_field(word, n, 0, out);
    put_byte(b'\n', a, out)
}

// The text of a refusal, in front of the area; the bytes behind it are kept.
pub fn write_refusal(n: usize, out: &mut [u8]) -> usize
    requires { refusal_room ≤ length out.old }
    ensures { Wrote (refusal_text n) out.old out.new result }
{
    write_said(b"refused ", n, out)
}

// The text of an excess, in front of the area; the bytes behind it are kept.
pub fn write_excess(n: usize, out: &mut [u8]) -> usize
    requires { refusal_room ≤ length out.old }
    ensures { Wrote (excess_text n) out.old out.new result }
{
    write_said(b"excess ", n, out)
}
