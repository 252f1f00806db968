// The lines that the programs print, and bytes in hex: the text of each type is its definition; and words as bytes.
#![tactic(auto)]

mod adding;
mod digits;

ghost use Rattle.std.specs.Prelude.{◌≡◌, ◌*◌, ◌≤◌, Some, length};
ghost use Rattle.std.specs.Fmt.{WritesOnOk};
ghost use Rattle.lines.specs.Lines.{put, Counts};
ghost use Rattle.texts.specs.Texts.{hex_of, word_bytes, report_line, vector_line, general_line};
ghost use Rattle.texts.specs.Writing.{Adds};

pub use adding::{add, add_hex};
use adding::{add_bit, add_decimal, add_four_bits};
use std::{fmt, str};

// Bytes in hex.
#[derive(Clone, Copy)]
pub struct Hex<'a>(pub &'a [u8]);

impl fmt::Display for Hex<'_> {
    ghost output = { λ h. Some (hex_of h.0.now) };

    fn fmt<W: fmt::Write>(&self, f: &mut fmt::Formatter<W>) -> fmt::Result {
        let Hex(bytes) = *self;
        for b in bytes {
            let b = *b;
            write!(f, "{b:02x}")?;
        }
        Ok(())
    }
}

// Each line is put into a buffer that has room for any of them; the result is its length. Its text by `Display` is the same.
fn write_line<W: fmt::Write>(f: &mut fmt::Formatter<W>, line: &[u8]) -> fmt::Result
    ensures writes { WritesOnOk W.write_str_gives f.old result line.now f.new }
{
    match str::from_utf8(line) {
        Ok(text) => f.write_str(text),
        Err(_) => Err(fmt::Error),
    }
}

// The line that tells how a run ended: the number of its answer, which alone is printed, the words completed, the next place, SAT, NJ and CR6.
#[derive(Clone, Copy)]
pub struct ReportLine {
    pub number: u32,
    pub count: u32,
    pub place: u32,
    pub sat: bool,
    pub nj: bool,
    pub cr6: u8,
}

impl ReportLine {
    pub fn put(self, out: &mut [u8; 80]) -> usize
        ensures adds { Adds out.old 0 (report_line self.number self.count self.place self.sat self.nj self.cr6) result out.new }
        ensures counts { Counts result out.new }
    {
        let ReportLine {
            number,
            count,
            place,
            sat,
            nj,
            cr6,
        } = self;
        let a = add(out, 0, b"answer ");
        let b = add_decimal(out, a, number);
        let c = add(out, b, b" steps ");
        let d = add_decimal(out, c, count);
        let e = add(out, d, b" place ");
        let f = add_decimal(out, e, place);
        let g = add(out, f, b" sat ");
        let h = add_bit(out, g, sat);
        let i = add(out, h, b" nj ");
        let j = add_bit(out, i, nj);
        let k = add(out, j, b" cr6 ");
        let l = add_four_bits(out, k, cr6);
        add(out, l, b"\n")
    }
}

impl fmt::Display for ReportLine {
    ghost output = { λ r. Some (report_line r.number r.count r.place r.sat r.nj r.cr6) };

    fn fmt<W: fmt::Write>(&self, f: &mut fmt::Formatter<W>) -> fmt::Result {
        let mut line = [0u8; 80];
        let n = self.put(&mut line);
        write_line(f, &line[..n])
    }
}

// The line of a vector: its number after `v`, and its bytes in hex. That of a general register differs in its letter and in what it is made of.
#[derive(Clone, Copy)]
pub struct VectorLine {
    pub n: u32,
    pub x: [u8; 16],
}

impl VectorLine {
    pub fn put(self, out: &mut [u8; 80]) -> usize
        ensures adds { Adds out.old 0 (vector_line self.n self.x) result out.new }
        ensures counts { Counts result out.new }
    {
        let VectorLine { n, x } = self;
        let a = add(out, 0, b"v");
        let b = add_decimal(out, a, n);
        let c = add(out, b, b" ");
        let d = add_hex(out, c, &x);
        add(out, d, b"\n")
    }
}

impl fmt::Display for VectorLine {
    ghost output = { λ v. Some (vector_line v.n v.x) };

    fn fmt<W: fmt::Write>(&self, f: &mut fmt::Formatter<W>) -> fmt::Result {
        let mut line = [0u8; 80];
        let n = self.put(&mut line);
        write_line(f, &line[..n])
    }
}

// The line of a general register: its number after `r`, and its bytes in hex.
#[derive(Clone, Copy)]
pub struct GeneralLine {
    pub n: u32,
    pub x: u32,
}

impl GeneralLine {
    pub fn put(self, out: &mut [u8; 80]) -> usize
        ensures adds { Adds out.old 0 (general_line self.n self.x) result out.new }
        ensures counts { Counts result out.new }
    {
        let GeneralLine { n, x } = self;
        let bytes = x.to_be_bytes();
        let a = add(out, 0, b"r");
        let b = add_decimal(out, a, n);
        let c = add(out, b, b" ");
        let d = add_hex(out, c, &bytes);
        add(out, d, b"\n")
    }
}

impl fmt::Display for GeneralLine {
    ghost output = { λ r. Some (general_line r.n r.x) };

    fn fmt<W: fmt::Write>(&self, f: &mut fmt::Formatter<W>) -> fmt::Result {
        let mut line = [0u8; 80];
        let n = self.put(&mut line);
        write_line(f, &line[..n])
    }
}

// The bytes of words, the most significant first; a word has its place by its number, and what is behind the last stays.
pub fn put_words(words: &[u32], out: &mut [u8])
    requires { 4 * length words.now ≤ length out.old }
    ensures start { out.new ≡ put out.old 0 (word_bytes words.now) }
    ensures whole { length out.old ≡ 4 * length words.now → out.new ≡ word_bytes words.now }
{
    for (i, word) in words.iter().enumerate() {
        out[4 * i..4 * i + 4].copy_from_slice(&word.to_be_bytes());
    }
}

#[cfg(test)]
mod tests {
    use super::*;
    use std::test::Fail;

    // That a text is written where the writer takes it all, no law says.
    #[test]
    fn texts_are_written(rt: HostRuntime) -> Result<(), Fail> {
        let report = ReportLine {
            number: 4,
            count: 10,
            place: 4294967295,
            sat: true,
            nj: false,
            cr6: 10,
        };
        let vector = VectorLine {
            n: 31,
            x: [171; 16],
        };
        let general = GeneralLine { n: 0, x: 66051 };
        let texts = format!(in rt.alloc(); "{report}{vector}{general}{}", Hex(&[0, 255]))?;
        let wanted =
            "answer 4 steps 10 place 4294967295 sat 1 nj 0 cr6 1010\nv31 abababababababababababababababab\nr0 00010203\n00ff";
        assert_eq!(rt; texts.as_str(), wanted);
        Ok(())
    }
}
