// Runs every word-wise instruction on four sets of operands, and document 01's examples that concern them, and prints what each gives.
#![tactic(auto)]

use hexlines::{marked, show};

fn group_0(rt: &impl Print, a: [u8; 16], b: [u8; 16], c: [u8; 16], i: u8) {
    show(rt, b"vaddubm", vector::vaddubm(a, b));
    show(rt, b"vadduhm", vector::vadduhm(a, b));
    show(rt, b"vadduwm", vector::vadduwm(a, b));
    show(rt, b"vaddcuw", vector::vaddcuw(a, b));
    marked(rt, b"vaddubs", vector::vaddubs(a, b));
    marked(rt, b"vadduhs", vector::vadduhs(a, b));
    marked(rt, b"vadduws", vector::vadduws(a, b));
    marked(rt, b"vaddsbs", vector::vaddsbs(a, b));
}

fn group_1(rt: &impl Print, a: [u8; 16], b: [u8; 16], c: [u8; 16], i: u8) {
    marked(rt, b"vaddshs", vector::vaddshs(a, b));
    marked(rt, b"vaddsws", vector::vaddsws(a, b));
    show(rt, b"vsububm", vector::vsububm(a, b));
    show(rt, b"vsubuhm", vector::vsubuhm(a, b));
    show(rt, b"vsubuwm", vector::vsubuwm(a, b));
    show(rt, b"vsubcuw", vector::vsubcuw(a, b));
    marked(rt, b"vsububs", vector::vsububs(a, b));
    marked(rt, b"vsubuhs", vector::vsubuhs(a, b));
}

fn group_2(rt: &impl Print, a: [u8; 16], b: [u8; 16], c: [u8; 16], i: u8) {
    marked(rt, b"vsubuws", vector::vsubuws(a, b));
    marked(rt, b"vsubsbs", vector::vsubsbs(a, b));
    marked(rt, b"vsubshs", vector::vsubshs(a, b));
    marked(rt, b"vsubsws", vector::vsubsws(a, b));
    show(rt, b"vmaxub", vector::vmaxub(a, b));
    show(rt, b"vmaxuh", vector::vmaxuh(a, b));
    show(rt, b"vmaxuw", vector::vmaxuw(a, b));
    show(rt, b"vmaxsb", vector::vmaxsb(a, b));
}

fn group_3(rt: &impl Print, a: [u8; 16], b: [u8; 16], c: [u8; 16], i: u8) {
    show(rt, b"vmaxsh", vector::vmaxsh(a, b));
    show(rt, b"vmaxsw", vector::vmaxsw(a, b));
    show(rt, b"vminub", vector::vminub(a, b));
    show(rt, b"vminuh", vector::vminuh(a, b));
    show(rt, b"vminuw", vector::vminuw(a, b));
    show(rt, b"vminsb", vector::vminsb(a, b));
    show(rt, b"vminsh", vector::vminsh(a, b));
    show(rt, b"vminsw", vector::vminsw(a, b));
}

fn group_4(rt: &impl Print, a: [u8; 16], b: [u8; 16], c: [u8; 16], i: u8) {
    show(rt, b"vavgub", vector::vavgub(a, b));
    show(rt, b"vavguh", vector::vavguh(a, b));
    show(rt, b"vavguw", vector::vavguw(a, b));
    show(rt, b"vavgsb", vector::vavgsb(a, b));
    show(rt, b"vavgsh", vector::vavgsh(a, b));
    show(rt, b"vavgsw", vector::vavgsw(a, b));
    show(rt, b"vrlb", vector::vrlb(a, b));
    show(rt, b"vrlh", vector::vrlh(a, b));
}

fn group_5(rt: &impl Print, a: [u8; 16], b: [u8; 16], c: [u8; 16], i: u8) {
    show(rt, b"vrlw", vector::vrlw(a, b));
    show(rt, b"vslb", vector::vslb(a, b));
    show(rt, b"vslh", vector::vslh(a, b));
    show(rt, b"vslw", vector::vslw(a, b));
    show(rt, b"vsrb", vector::vsrb(a, b));
    show(rt, b"vsrh", vector::vsrh(a, b));
    show(rt, b"vsrw", vector::vsrw(a, b));
    show(rt, b"vsrab", vector::vsrab(a, b));
}

fn group_6(rt: &impl Print, a: [u8; 16], b: [u8; 16], c: [u8; 16], i: u8) {
    show(rt, b"vsrah", vector::vsrah(a, b));
    show(rt, b"vsraw", vector::vsraw(a, b));
    show(rt, b"vand", vector::vand(a, b));
    show(rt, b"vandc", vector::vandc(a, b));
    show(rt, b"vor", vector::vor(a, b));
    show(rt, b"vxor", vector::vxor(a, b));
    show(rt, b"vnor", vector::vnor(a, b));
    show(rt, b"vmuloub", vector::vmuloub(a, b));
}

fn group_7(rt: &impl Print, a: [u8; 16], b: [u8; 16], c: [u8; 16], i: u8) {
    show(rt, b"vmulouh", vector::vmulouh(a, b));
    show(rt, b"vmulosb", vector::vmulosb(a, b));
    show(rt, b"vmulosh", vector::vmulosh(a, b));
    show(rt, b"vmuleub", vector::vmuleub(a, b));
    show(rt, b"vmuleuh", vector::vmuleuh(a, b));
    show(rt, b"vmulesb", vector::vmulesb(a, b));
    show(rt, b"vmulesh", vector::vmulesh(a, b));
    marked(rt, b"vsum4ubs", vector::vsum4ubs(a, b));
}

fn group_8(rt: &impl Print, a: [u8; 16], b: [u8; 16], c: [u8; 16], i: u8) {
    marked(rt, b"vsum4sbs", vector::vsum4sbs(a, b));
    marked(rt, b"vsum4shs", vector::vsum4shs(a, b));
    show(rt, b"vspltisb", vector::vspltisb(i));
    show(rt, b"vspltish", vector::vspltish(i));
    show(rt, b"vspltisw", vector::vspltisw(i));
    show(rt, b"vcmpequb", vector::vcmpequb(a, b));
    show(rt, b"vcmpequh", vector::vcmpequh(a, b));
    show(rt, b"vcmpequw", vector::vcmpequw(a, b));
}

fn group_9(rt: &impl Print, a: [u8; 16], b: [u8; 16], c: [u8; 16], i: u8) {
    show(rt, b"vcmpgtub", vector::vcmpgtub(a, b));
    show(rt, b"vcmpgtuh", vector::vcmpgtuh(a, b));
    show(rt, b"vcmpgtuw", vector::vcmpgtuw(a, b));
    show(rt, b"vcmpgtsb", vector::vcmpgtsb(a, b));
    show(rt, b"vcmpgtsh", vector::vcmpgtsh(a, b));
    show(rt, b"vcmpgtsw", vector::vcmpgtsw(a, b));
    marked(rt, b"vmhaddshs", vector::vmhaddshs(a, b, c));
    marked(rt, b"vmhraddshs", vector::vmhraddshs(a, b, c));
}

fn group_10(rt: &impl Print, a: [u8; 16], b: [u8; 16], c: [u8; 16], i: u8) {
    show(rt, b"vmladduhm", vector::vmladduhm(a, b, c));
    show(rt, b"vmsumubm", vector::vmsumubm(a, b, c));
    show(rt, b"vmsummbm", vector::vmsummbm(a, b, c));
    show(rt, b"vmsumuhm", vector::vmsumuhm(a, b, c));
    marked(rt, b"vmsumuhs", vector::vmsumuhs(a, b, c));
    show(rt, b"vmsumshm", vector::vmsumshm(a, b, c));
    marked(rt, b"vmsumshs", vector::vmsumshs(a, b, c));
    show(rt, b"vsel", vector::vsel(a, b, c));
}

fn on(rt: &impl Print, a: [u8; 16], b: [u8; 16], c: [u8; 16], i: u8) {
    group_0(rt, a, b, c, i);
    group_1(rt, a, b, c, i);
    group_2(rt, a, b, c, i);
    group_3(rt, a, b, c, i);
    group_4(rt, a, b, c, i);
    group_5(rt, a, b, c, i);
    group_6(rt, a, b, c, i);
    group_7(rt, a, b, c, i);
    group_8(rt, a, b, c, i);
    group_9(rt, a, b, c, i);
    group_10(rt, a, b, c, i);
}

fn examples(rt: &impl Print) {
    marked(rt, b"vaddsbs", vector::vaddsbs([127; 16], [1; 16]));
    marked(rt, b"vaddubs", vector::vaddubs([255; 16], [0; 16]));
    marked(
        rt,
        b"vsubsws",
        vector::vsubsws(
            [128, 0, 0, 0, 128, 0, 0, 0, 128, 0, 0, 0, 128, 0, 0, 0],
            [0, 0, 0, 1, 0, 0, 0, 1, 0, 0, 0, 1, 0, 0, 0, 1],
        ),
    );
    show(rt, b"vavgsb", vector::vavgsb([255; 16], [254; 16]));
    show(rt, b"vavgsb", vector::vavgsb([255; 16], [253; 16]));
    marked(
        rt,
        b"vmhaddshs",
        vector::vmhaddshs(
            [
                128, 0, 128, 0, 128, 0, 128, 0, 128, 0, 128, 0, 128, 0, 128, 0,
            ],
            [
                128, 0, 128, 0, 128, 0, 128, 0, 128, 0, 128, 0, 128, 0, 128, 0,
            ],
            [0; 16],
        ),
    );
    marked(
        rt,
        b"vmhaddshs",
        vector::vmhaddshs(
            [
                128, 0, 128, 0, 128, 0, 128, 0, 128, 0, 128, 0, 128, 0, 128, 0,
            ],
            [
                128, 0, 128, 0, 128, 0, 128, 0, 128, 0, 128, 0, 128, 0, 128, 0,
            ],
            [255; 16],
        ),
    );
    marked(
        rt,
        b"vmhraddshs",
        vector::vmhraddshs(
            [255; 16],
            [64, 0, 64, 0, 64, 0, 64, 0, 64, 0, 64, 0, 64, 0, 64, 0],
            [0; 16],
        ),
    );
    marked(
        rt,
        b"vmhaddshs",
        vector::vmhaddshs(
            [255; 16],
            [64, 0, 64, 0, 64, 0, 64, 0, 64, 0, 64, 0, 64, 0, 64, 0],
            [0; 16],
        ),
    );
    marked(
        rt,
        b"vmsumshs",
        vector::vmsumshs(
            [
                0, 1, 255, 255, 0, 1, 255, 255, 0, 1, 255, 255, 0, 1, 255, 255,
            ],
            [0, 1, 0, 1, 0, 1, 0, 1, 0, 1, 0, 1, 0, 1, 0, 1],
            [
                127, 255, 255, 255, 127, 255, 255, 255, 127, 255, 255, 255, 127, 255, 255, 255,
            ],
        ),
    );
    show(
        rt,
        b"vsubcuw",
        vector::vsubcuw(
            [0, 0, 0, 5, 0, 0, 0, 5, 0, 0, 0, 5, 0, 0, 0, 5],
            [0, 0, 0, 5, 0, 0, 0, 5, 0, 0, 0, 5, 0, 0, 0, 5],
        ),
    );
    show(
        rt,
        b"vsubcuw",
        vector::vsubcuw(
            [0, 0, 0, 4, 0, 0, 0, 4, 0, 0, 0, 4, 0, 0, 0, 4],
            [0, 0, 0, 5, 0, 0, 0, 5, 0, 0, 0, 5, 0, 0, 0, 5],
        ),
    );
    show(rt, b"vrlb", vector::vrlb([129; 16], [9; 16]));
}

fn main(rt: HostRuntime) {
    examples(&rt);
    on(
        &rt,
        [
            127, 255, 128, 0, 1, 255, 128, 1, 127, 255, 255, 255, 128, 0, 0, 0,
        ],
        [0, 1, 255, 255, 127, 1, 255, 254, 0, 0, 0, 1, 0, 0, 0, 1],
        [
            128, 0, 0, 1, 0, 255, 127, 255, 127, 255, 255, 255, 0, 0, 0, 0,
        ],
        0,
    );
    on(
        &rt,
        [128, 0, 128, 0, 127, 255, 127, 255, 128, 0, 0, 0, 0, 1, 0, 1],
        [
            128, 0, 128, 0, 127, 255, 127, 255, 0, 0, 0, 1, 255, 255, 0, 1,
        ],
        [
            0, 0, 255, 255, 127, 255, 128, 0, 127, 255, 255, 255, 128, 0, 0, 0,
        ],
        15,
    );
    on(
        &rt,
        [
            255, 255, 255, 255, 255, 255, 255, 255, 0, 0, 0, 5, 0, 0, 0, 255,
        ],
        [
            255, 255, 255, 255, 255, 255, 255, 255, 0, 0, 0, 5, 0, 0, 0, 254,
        ],
        [
            255, 255, 255, 255, 255, 255, 255, 255, 127, 255, 255, 255, 18, 52, 86, 120,
        ],
        16,
    );
    on(
        &rt,
        [
            1, 35, 69, 103, 137, 171, 205, 239, 254, 220, 186, 152, 118, 84, 50, 16,
        ],
        [
            9, 10, 11, 12, 31, 47, 63, 79, 129, 130, 131, 132, 255, 0, 255, 17,
        ],
        [
            15, 15, 15, 15, 240, 240, 240, 240, 170, 170, 170, 170, 85, 85, 85, 85,
        ],
        31,
    );
}
