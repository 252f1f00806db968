// Runs every instruction that carries lanes across words on six sets of operands, and the documents' examples that concern them,
// and prints what each gives.
#![tactic(auto)]

use hexlines::{marked, show};

fn chosen(rt: &impl Print, a: [u8; 16], b: [u8; 16], c: [u8; 16]) {
    show(rt, b"vmrghb", moves::vmrghb(a, b));
    show(rt, b"vmrghh", moves::vmrghh(a, b));
    show(rt, b"vmrghw", moves::vmrghw(a, b));
    show(rt, b"vmrglb", moves::vmrglb(a, b));
    show(rt, b"vmrglh", moves::vmrglh(a, b));
    show(rt, b"vmrglw", moves::vmrglw(a, b));
    show(rt, b"vpkuhum", packing::vpkuhum(a, b));
    show(rt, b"vpkuwum", packing::vpkuwum(a, b));
    show(rt, b"vsl", moves::vsl(a, b));
    show(rt, b"vsr", moves::vsr(a, b));
    show(rt, b"vslo", slides::vslo(a, b));
    show(rt, b"vsro", slides::vsro(a, b));
    show(rt, b"vperm", moves::vperm(a, b, c));
}

fn resized(rt: &impl Print, a: [u8; 16], b: [u8; 16]) {
    marked(rt, b"vpkuhus", packing::vpkuhus(a, b));
    marked(rt, b"vpkuwus", packing::vpkuwus(a, b));
    marked(rt, b"vpkshus", packing::vpkshus(a, b));
    marked(rt, b"vpkswus", packing::vpkswus(a, b));
    marked(rt, b"vpkshss", packing::vpkshss(a, b));
    marked(rt, b"vpkswss", packing::vpkswss(a, b));
    marked(rt, b"vsum2sws", packing::vsum2sws(a, b));
    marked(rt, b"vsumsws", packing::vsumsws(a, b));
    show(rt, b"vupkhsb", packing::vupkhsb(b));
    show(rt, b"vupkhsh", packing::vupkhsh(b));
    show(rt, b"vupklsb", packing::vupklsb(b));
    show(rt, b"vupklsh", packing::vupklsh(b));
}

fn numbered(rt: &impl Print, a: [u8; 16], b: [u8; 16], n: u8) {
    show(rt, b"vsldoi", slides::vsldoi(a, b, n));
    show(rt, b"vspltb", moves::vspltb(b, n));
    show(rt, b"vsplth", moves::vsplth(b, n));
    show(rt, b"vspltw", moves::vspltw(b, n));
    show(rt, b"lvsl", moves::lvsl(n));
    show(rt, b"lvsr", moves::lvsr(n));
}

// Document 001, vslo: a pair of shifts by the same count moves the whole register by up to 127 bits.
fn pairs(rt: &impl Print, a: [u8; 16], n: u8) {
    let count = [n; 16];
    show(rt, b"left", moves::vsl(slides::vslo(a, count), count));
    show(rt, b"right", moves::vsr(slides::vsro(a, count), count));
}

// Document 001, lvsr: a rotation by bytes.
fn rotated(rt: &impl Print, a: [u8; 16], n: u8) {
    show(rt, b"rotated left", moves::vperm(a, a, moves::lvsl(n)));
    show(rt, b"rotated right", moves::vperm(a, a, moves::lvsr(n)));
}

// Document 001, vsr: two registers shifted left by n bits in six instructions, and the left one of the two kept.
fn doubled(rt: &impl Print, w: [u8; 16], x: [u8; 16], n: u8) {
    let y = [n; 16];
    let t1 = moves::vsl(slides::vslo(w, y), y);
    let t3 = vector::vsububm([0; 16], y);
    let t2 = moves::vsr(slides::vsro(x, t3), t3);
    show(rt, b"doubled", vector::vor(t1, t2));
}

// Document 003, "Accessing Unaligned Storage Operands": a quad word at address 11, loaded from the two lines that hold it, and stored into them.
fn unaligned(rt: &impl Print, high: [u8; 16], low: [u8; 16], s: [u8; 16]) {
    show(rt, b"loaded", moves::vperm(high, low, moves::lvsl(11)));
    let p = moves::lvsr(11);
    let mask = moves::vperm(vector::vspltisb(0), vector::vspltisb(31), p);
    let t = moves::vperm(s, s, p);
    show(rt, b"stored high", vector::vsel(high, t, mask));
    show(rt, b"stored low", vector::vsel(t, low, mask));
}

fn on(rt: &impl Print, a: [u8; 16], b: [u8; 16], c: [u8; 16]) {
    chosen(rt, a, b, c);
    resized(rt, a, b);
}

fn counted(rt: &impl Print, a: [u8; 16], b: [u8; 16]) {
    for n in 0..20u8 {
        numbered(rt, a, b, n);
        rotated(rt, a, n);
    }
}

fn shifted(rt: &impl Print, a: [u8; 16]) {
    for n in 0..128u8 {
        pairs(rt, a, n);
    }
}

fn main(rt: HostRuntime) {
    // Document 01: vpkshus 255 and 256.
    marked(
        &rt,
        b"vpkshus",
        packing::vpkshus(
            [0, 255, 1, 0, 0, 255, 1, 0, 0, 255, 1, 0, 0, 255, 1, 0],
            [0, 255, 1, 0, 0, 255, 1, 0, 0, 255, 1, 0, 0, 255, 1, 0],
        ),
    );
    on(
        &rt,
        [
            127, 255, 128, 0, 0, 255, 1, 0, 255, 255, 255, 128, 0, 127, 0, 128,
        ],
        [
            255, 127, 128, 1, 127, 255, 255, 255, 128, 0, 0, 0, 0, 0, 128, 45,
        ],
        [
            0, 31, 16, 15, 227, 69, 154, 60, 8, 24, 255, 32, 1, 17, 94, 118,
        ],
    );
    on(
        &rt,
        [
            255, 127, 128, 1, 127, 255, 255, 255, 128, 0, 0, 0, 0, 0, 128, 45,
        ],
        [
            127, 255, 128, 0, 0, 255, 1, 0, 255, 255, 255, 128, 0, 127, 0, 128,
        ],
        [
            31, 30, 29, 28, 27, 26, 25, 24, 23, 22, 21, 20, 19, 18, 17, 16,
        ],
    );
    on(
        &rt,
        [0, 1, 2, 3, 4, 5, 6, 7, 8, 9, 10, 11, 12, 13, 14, 15],
        [
            16, 17, 18, 19, 20, 21, 22, 23, 24, 25, 26, 27, 28, 29, 30, 31,
        ],
        [
            0, 31, 16, 15, 227, 69, 154, 60, 8, 24, 255, 32, 1, 17, 94, 118,
        ],
    );
    on(
        &rt,
        [
            127, 255, 255, 255, 127, 255, 255, 255, 127, 255, 255, 255, 127, 255, 255, 255,
        ],
        [
            0, 0, 0, 1, 255, 255, 255, 254, 0, 0, 255, 255, 127, 255, 255, 255,
        ],
        [0, 1, 2, 3, 4, 5, 6, 7, 8, 9, 10, 11, 12, 13, 14, 15],
    );
    on(
        &rt,
        [128, 0, 0, 0, 128, 0, 0, 0, 128, 0, 0, 0, 128, 0, 0, 0],
        [
            127, 255, 255, 255, 127, 255, 255, 255, 127, 255, 255, 255, 127, 255, 255, 255,
        ],
        [
            255, 127, 128, 1, 127, 255, 255, 255, 128, 0, 0, 0, 0, 0, 128, 45,
        ],
    );
    on(
        &rt,
        [
            0, 0, 0, 1, 255, 255, 255, 254, 0, 0, 255, 255, 127, 255, 255, 255,
        ],
        [128, 0, 0, 0, 128, 0, 0, 0, 128, 0, 0, 0, 128, 0, 0, 0],
        [
            127, 255, 128, 0, 0, 255, 1, 0, 255, 255, 255, 128, 0, 127, 0, 128,
        ],
    );
    let a = [
        0, 31, 16, 15, 227, 69, 154, 60, 8, 24, 255, 32, 1, 17, 94, 118,
    ];
    let b = [
        255, 127, 128, 1, 127, 255, 255, 255, 128, 0, 0, 0, 0, 0, 128, 45,
    ];
    counted(&rt, a, b);
    numbered(&rt, a, b, 255);
    shifted(&rt, a);
    pairs(&rt, a, 255);
    let w = [
        1, 35, 69, 103, 137, 171, 205, 239, 254, 220, 186, 152, 118, 84, 50, 16,
    ];
    let x = [
        240, 225, 210, 195, 180, 165, 150, 135, 120, 105, 90, 75, 60, 45, 30, 15,
    ];
    doubled(&rt, w, x, 1);
    doubled(&rt, w, x, 8);
    doubled(&rt, w, x, 37);
    doubled(&rt, w, x, 127);
    let y = [
        16, 17, 18, 19, 20, 21, 22, 23, 24, 25, 26, 27, 28, 29, 30, 31,
    ];
    unaligned(&rt, w, x, y);
}
