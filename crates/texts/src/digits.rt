// Digits, in hex, in decimal and in binary.
ghost use Rattle.std.specs.Prelude.{◌+◌, ◌%◌, ◌<◌, ◌≤◌, [], ◌∷◌, ◌≡◌};
ghost use Rattle.texts.specs.Texts.{glyph, ten_digits, zeros_before, binary_of, hex_of};

// A digit below 16.
#[tactic(auto, unfolding(crate::specs::Texts::glyph))]
fn digit(d: u8) -> u8
    requires { d < 16 }
    ensures { result ≡ glyph d }
{
    if d < 10 { 48 + d } else { 87 + d }
}

// A byte in hex.
pub fn two_digits(b: u8) -> [u8; 2]
    ensures { result ≡ hex_of (b ∷ []) }
{
    [digit(b / 16), digit(b % 16)]
}

// One of ten digits.
fn decimal_digit(n: u32) -> u8
    ensures { result ≡ 48 + n % 10 }
{
    let d = 48 + n % 10;
    d as u8
}

#[tactic(auto, unfolding(crate::specs::Texts::ten_digits))]
pub fn ten_digits(n: u32) -> [u8; 10]
    ensures { result ≡ ten_digits n }
{
    [
        decimal_digit(n / 1000000000),
        decimal_digit(n / 100000000),
        decimal_digit(n / 10000000),
        decimal_digit(n / 1000000),
        decimal_digit(n / 100000),
        decimal_digit(n / 10000),
        decimal_digit(n / 1000),
        decimal_digit(n / 100),
        decimal_digit(n / 10),
        decimal_digit(n),
    ]
}

// How many of the ten digits are zeros in front.
#[tactic(auto, unfolding(crate::specs::Texts::zeros_before))]
pub fn zeros_before(n: u32) -> usize
    ensures { (result ≡ zeros_before n) × (result ≤ 9) }
{
    match n {
        0..10 => 9,
        10..100 => 8,
        100..1000 => 7,
        1000..10000 => 6,
        10000..100000 => 5,
        100000..1000000 => 4,
        1000000..10000000 => 3,
        10000000..100000000 => 2,
        100000000..1000000000 => 1,
        _ => 0,
    }
}

#[tactic(auto, unfolding(crate::specs::Texts::binary_of))]
pub fn four_bits(n: u8) -> [u8; 4]
    ensures { result ≡ binary_of n }
{
    [48 + n / 8 % 2, 48 + n / 4 % 2, 48 + n / 2 % 2, 48 + n % 2]
}
