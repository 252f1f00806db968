// Text added to a buffer at a place; the result is the place after it.
ghost use Rattle.std.specs.Prelude.{◌+◌, ◌*◌, ◌≤◌, length};
ghost use Rattle.texts.specs.Texts.{decimal_of, bit_of, binary_of, hex_of};
ghost use Rattle.texts.specs.Writing.{Adds};
ghost use Rattle.lines.specs.Lines.{Counts};

use crate::digits::{four_bits, ten_digits, two_digits, zeros_before};

pub fn add(out: &mut [u8], at: usize, text: &[u8]) -> usize
    requires { at + length text.now ≤ length out.old }
    ensures adds { Adds out.old at text.now result out.new }
    ensures counts { Counts result out.new }
{
    let end = at + text.len();
    out[at..end].copy_from_slice(text);
    end
}

pub fn add_decimal(out: &mut [u8], at: usize, n: u32) -> usize
    requires { at + 10 ≤ length out.old }
    ensures { Adds out.old at (decimal_of n) result out.new × (result ≤ at + 10) }
{
    let ten = ten_digits(n);
    let from = zeros_before(n);
    add(out, at, &ten[from..])
}

pub fn add_bit(out: &mut [u8], at: usize, b: bool) -> usize
    requires { at + 1 ≤ length out.old }
    ensures { Adds out.old at (bit_of b) result out.new × (result ≤ at + 1) }
{
    let one = 48 + u8::from(b);
    add(out, at, &[one])
}

pub fn add_four_bits(out: &mut [u8], at: usize, n: u8) -> usize
    requires { at + 4 ≤ length out.old }
    ensures { Adds out.old at (binary_of n) result out.new × (result ≤ at + 4) }
{
    let four = four_bits(n);
    add(out, at, &four)
}

// Bytes in hex.
pub fn add_hex(out: &mut [u8], at: usize, bytes: &[u8]) -> usize
    requires { at + 2 * length bytes.now ≤ length out.old }
    ensures { Adds out.old at (hex_of bytes.now) result out.new }
{
    let mut end = at;
    for b in bytes {
        let two = two_digits(*b);
        end = add(out, end, &two);
    }
    end
}
