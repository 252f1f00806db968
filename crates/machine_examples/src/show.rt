// A run from a machine of zeros, and what it leaves.
use std::array;

// The bytes from 0 on.
pub fn counted<const N: usize>() -> [u8; N] {
    array::from_fn(|i| (i % 256) as u8)
}

// The bytes 0 to 15.
pub fn line() -> [u8; 16] {
    counted()
}

// The bytes 0 to 63.
pub fn ramp() -> [u8; 64] {
    counted()
}

fn memory(rt: &impl Print, mem: &[u8]) {
    let (lines, _) = mem.as_chunks::<16>();
    for (n, line) in lines.iter().enumerate() {
        let _ = print!(rt; "m{}", 16 * n);
        hexlines::show(rt, b"", *line);
    }
}

// What is run stands apart, as the run takes it.
pub fn tell(
    rt: &impl Print,
    err: &impl Print,
    title: &str,
    code: &[u32],
    mem: &mut [u8],
    base: u32,
    place: u32,
    allowance: u32,
) {
    let outcome = states::at_rest().run(code, mem, base, place, allowance);
    let after = outcome.m;
    let _ = rt.println(title);
    printing::report(rt, err, outcome.report, after);
    printing::vectors(rt, err, after.v);
    printing::generals(rt, err, after.g);
    memory(rt, mem);
    let _ = rt.println("");
}
