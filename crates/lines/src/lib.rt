// Sixteen bytes of a list at a place: a vector register of the flat array, or a line of the memory; and the elements of a line.
#![tactic(auto)]

ghost use Rattle.std.specs.Prelude.{◌≡◌, ◌+◌, ◌*◌, ◌≤◌, ◌<◌, length};
ghost use Rattle.lines.specs.Lines.{sixteen, put, loaded_of, stored_of};

// A place is counted in bytes of a register file or of a memory, and each function asks that sixteen bytes are there: lent as sixteen they would
// have to be cut out by each caller, under the same condition.

// The sixteen bytes of s from place o on.
#[tactic(auto, unfolding(crate::specs::Lines::part))]
pub fn load(s: &[u8], o: usize) -> [u8; 16]
    requires { o + 16 ≤ length s.now }
    ensures { result ≡ sixteen s.now o }
{
    let mut x = [0u8; 16];
    x.copy_from_slice(&s[o..o + 16]);
    x
}

// The sixteen bytes of x go into s from place o on.
#[tactic(auto, using(crate::proofs::Copying::over))]
pub fn store(s: &mut [u8], o: usize, x: [u8; 16])
    requires { o + 16 ≤ length s.old }
    ensures { s.new ≡ put s.old o x }
{
    s[o..o + 16].copy_from_slice(&x);
}

// Line, place and length of an element stand apart: the type that holds them is control's, and this crate is below it.

// An element load: of the line of s at place o, the n bytes at place e, where they stand; the other bytes are zero.
pub fn load_element(s: &[u8], o: usize, e: usize, n: usize) -> [u8; 16]
    requires { (o + 16 ≤ length s.now) × (e + n ≤ 16) }
    ensures { result ≡ loaded_of s.now o e n }
{
    let from = o + e;
    let mut x = [0u8; 16];
    x[e..e + n].copy_from_slice(&s[from..from + n]);
    x
}

// An element store: into the line of s at place o, the n bytes of x at place e, where they stand; the other bytes stay.
pub fn store_element(s: &mut [u8], o: usize, e: usize, n: usize, x: [u8; 16])
    requires { (o + 16 ≤ length s.old) × (e + n ≤ 16) }
    ensures { s.new ≡ stored_of s.old o e n x }
{
    let at = o + e;
    s[at..at + n].copy_from_slice(&x[e..e + n]);
}

// Vector n.
pub fn vector(v: &[u8; 512], n: usize) -> [u8; 16]
    requires { n < 32 }
    ensures { result ≡ sixteen v.now (16 * n) }
{
    load(v, 16 * n)
}

// Vector n becomes x.
pub fn set_vector(v: &mut [u8; 512], n: usize, x: [u8; 16])
    requires { n < 32 }
    ensures { v.new ≡ put v.old (16 * n) x }
{
    store(v, 16 * n, x);
}
