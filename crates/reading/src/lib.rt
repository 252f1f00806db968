// What the programs read: raw bytes as words, and text as numbers.
#![tactic(auto)]

pub mod numbers;

ghost use Rattle.std.specs.Prelude.{IfSome};
ghost use Rattle.reading.specs.Words.{Fills};
ghost use Rattle.lines.specs.Lines.{Counts};

// Bytes as words, the most significant byte first, at the start of code, and how many; a word has its place by its number. It refuses a length that is no multiple of 4,
// and more words than code has places; code is then as it was.
pub fn words(bytes: &[u8], code: &mut [u32]) -> Option<usize>
    ensures fills { Fills bytes.now code.old result code.new }
    ensures counts { IfSome result (λ n. Counts n code.new) }
{
    let (fours, rest) = bytes.as_chunks::<4>();
    if !rest.is_empty() || code.len() < fours.len() {
        return None;
    }
    for (i, four) in fours.iter().enumerate() {
        code[i] = u32::from_be_bytes(*four);
    }
    Some(fours.len())
}
