// Small kernels over memory.
use crate::show::{line, ramp, tell};

fn elements_read(rt: &impl Print, err: &impl Print) {
    let code = [
        // addi r1, r0, 0x1015
        0x38201015,
        // lvebx v1, r0, r1
        0x7c20080e,
        // lvehx v2, r0, r1
        0x7c40084e,
        // lvewx v3, r0, r1
        0x7c60088e,
    ];
    let mut mem = ramp();
    tell(
        rt,
        err,
        "element loads at 0x1015: each in its place, the other bytes zero",
        &code,
        &mut mem,
        0x1000,
        0,
        100,
    );
}

fn elements_written(rt: &impl Print, err: &impl Print) {
    let code = [
        // addi r1, r0, 0x1016
        0x38201016,
        // vspltisb v1, -1
        0x103f030c,
        // stvebx v1, r0, r1
        0x7c20090e,
        // addi r1, r1, 16
        0x38210010,
        // stvehx v1, r0, r1
        0x7c20094e,
        // addi r1, r1, 16
        0x38210010,
        // stvewx v1, r0, r1
        0x7c20098e,
    ];
    let mut mem = ramp();
    tell(
        rt,
        err,
        "element stores of ones at 0x1016: no other byte changes",
        &code,
        &mut mem,
        0x1000,
        0,
        100,
    );
}

fn line_copied(rt: &impl Print, err: &impl Print) {
    let code = [
        // addi r1, r0, 0x1000
        0x38201000,
        // addi r2, r0, 0x1030
        0x38401030,
        // lvxl v1, r0, r1
        0x7c200ace,
        // stvxl v1, r0, r2
        0x7c2013ce,
    ];
    let mut mem = ramp();
    tell(
        rt,
        err,
        "a line through a register",
        &code,
        &mut mem,
        0x1000,
        0,
        100,
    );
}

fn unaligned_read(rt: &impl Print, err: &impl Print) {
    let code = [
        // addi r1, r0, 0x1005
        0x38201005,
        // addi r2, r0, 15
        0x3840000f,
        // lvx v1, r0, r1
        0x7c2008ce,
        // lvsl v2, r0, r1
        0x7c40080c,
        // lvx v3, r2, r1
        0x7c6208ce,
        // vperm v4, v1, v3, v2
        0x108118ab,
    ];
    let mut mem = ramp();
    tell(
        rt,
        err,
        "sixteen bytes from 0x1005 on",
        &code,
        &mut mem,
        0x1000,
        0,
        100,
    );
}

fn unaligned_write(rt: &impl Print, err: &impl Print) {
    let code = [
        // addi r1, r0, 0x1005
        0x38201005,
        // addi r2, r0, 16
        0x38400010,
        // vspltisb v1, 2
        0x1022030c,
        // lvsr v2, r0, r1
        0x7c40084c,
        // vperm v1, v1, v1, v2
        0x102108ab,
        // lvx v3, r0, r1
        0x7c6008ce,
        // lvx v4, r1, r2
        0x7c8110ce,
        // vspltisb v5, 0
        0x10a0030c,
        // vspltisb v6, -1
        0x10df030c,
        // vperm v7, v5, v6, v2
        0x10e530ab,
        // vsel v3, v3, v1, v7
        0x106309ea,
        // vsel v4, v1, v4, v7
        0x108121ea,
        // stvx v3, r0, r1
        0x7c6009ce,
        // stvx v4, r1, r2
        0x7c8111ce,
    ];
    let mut mem = ramp();
    tell(
        rt,
        err,
        "sixteen bytes of 2 from 0x1005 on: the bytes around them stay",
        &code,
        &mut mem,
        0x1000,
        0,
        100,
    );
}

fn sat_stays(rt: &impl Print, err: &impl Print) {
    let code = [
        // vspltisb v1, -1
        0x103f030c,
        // vaddubs v2, v1, v1
        0x10410a00,
        // mfvscr v3
        0x10600604,
        // vaddubs v4, v5, v5
        0x10852a00,
        // mfvscr v6
        0x10c00604,
        // mtvscr v5
        0x10002e44,
        // mfvscr v7
        0x10e00604,
    ];
    let mut mem = line();
    tell(
        rt,
        err,
        "SAT stays on through an instruction that does not clip, and mtvscr turns it off",
        &code,
        &mut mem,
        0x1000,
        0,
        100,
    );
}

fn status_both(rt: &impl Print, err: &impl Print) {
    let code = [
        // vspltisb v1, -1
        0x103f030c,
        // mtvscr v1
        0x10000e44,
        // mfvscr v2
        0x10400604,
    ];
    let mut mem = line();
    tell(
        rt,
        err,
        "mtvscr sets NJ and SAT from bits 111 and 127, and ignores the rest",
        &code,
        &mut mem,
        0x1000,
        0,
        100,
    );
}

fn target_is_source(rt: &impl Print, err: &impl Print) {
    let code = [
        // addi r1, r0, 0x1000
        0x38201000,
        // lvx v1, r0, r1
        0x7c2008ce,
        // vpkuhum v1, v1, v1
        0x1021080e,
        // vmrghb v1, v1, v1
        0x1021080c,
        // vsldoi v1, v1, v1, 3
        0x102108ec,
    ];
    let mut mem = ramp();
    tell(
        rt,
        err,
        "D is a source too",
        &code,
        &mut mem,
        0x1000,
        0,
        100,
    );
}

fn summaries(rt: &impl Print, err: &impl Print) {
    let code = [
        // vspltisb v1, 1
        0x1021030c,
        // vcmpequb. v2, v1, v1
        0x10410c06,
        // vcmpgtub v3, v1, v1
        0x10610a06,
    ];
    let mut mem = line();
    tell(
        rt,
        err,
        "CR6 of a compare with Rc, and none of one without",
        &code,
        &mut mem,
        0x1000,
        0,
        100,
    );
}

fn none_true(rt: &impl Print, err: &impl Print) {
    let code = [
        // vspltisb v1, 1
        0x1021030c,
        // vcmpgtub. v3, v1, v1
        0x10610e06,
    ];
    let mut mem = line();
    tell(
        rt,
        err,
        "CR6 where no lane is true",
        &code,
        &mut mem,
        0x1000,
        0,
        100,
    );
}

fn correction(rt: &impl Print, err: &impl Print) {
    let code = [
        // addi r1, r0, 0x1000
        0x38201000,
        // addi r2, r0, 16
        0x38400010,
        // addi r3, r0, 32
        0x38600020,
        // addi r4, r0, 48
        0x38800030,
        // lvx v1, r0, r1
        0x7c2008ce,
        // lvx v2, r1, r2
        0x7c4110ce,
        // lvx v3, r1, r3
        0x7c6118ce,
        // lvx v4, r1, r4
        0x7c8120ce,
        // vmhraddshs v5, v1, v4, v3
        0x10a120e1,
        // vmhraddshs v5, v1, v5, v2
        0x10a128a1,
        // stvx v5, r0, r1
        0x7ca009ce,
    ];
    let mut mem: [u8; 64] = [
        0x00, 0x00, 0x0c, 0xcd, 0x19, 0x9a, 0x26, 0x66, 0x33, 0x33, 0x40, 0x00, 0xc0, 0x00, 0x80,
        0x00, 0x40, 0x00, 0x40, 0x00, 0x40, 0x00, 0x40, 0x00, 0x40, 0x00, 0x40, 0x00, 0x40, 0x00,
        0x40, 0x00, 0x20, 0x00, 0x20, 0x00, 0x20, 0x00, 0x20, 0x00, 0x20, 0x00, 0x20, 0x00, 0x20,
        0x00, 0x20, 0x00, 0x10, 0x00, 0x10, 0x00, 0x10, 0x00, 0x10, 0x00, 0x10, 0x00, 0x10, 0x00,
        0x10, 0x00, 0x10, 0x00,
    ];
    tell(
        rt,
        err,
        "a polynomial of degree 2 over a line: (0x1000 x + 0x2000) x + 0x4000, in 16-bit fixed point",
        &code,
        &mut mem,
        0x1000,
        0,
        100,
    );
}

fn correction_clipped(rt: &impl Print, err: &impl Print) {
    let code = [
        // addi r1, r0, 0x1000
        0x38201000,
        // addi r2, r0, 16
        0x38400010,
        // lvx v1, r0, r1
        0x7c2008ce,
        // lvx v2, r1, r2
        0x7c4110ce,
        // vmhraddshs v5, v1, v1, v2
        0x10a108a1,
        // stvx v5, r0, r1
        0x7ca009ce,
    ];
    let mut mem: [u8; 32] = [
        0x7f, 0xff, 0x7f, 0xff, 0x00, 0x00, 0x00, 0x00, 0x80, 0x00, 0x80, 0x00, 0x00, 0x01, 0xff,
        0xff, 0x7f, 0xff, 0x00, 0x01, 0x00, 0x01, 0x00, 0x01, 0x00, 0x01, 0x00, 0x00, 0x00, 0x00,
        0x00, 0x00,
    ];
    tell(
        rt,
        err,
        "the same with a constant that clips: SAT says so",
        &code,
        &mut mem,
        0x1000,
        0,
        100,
    );
}

fn widened_sum(rt: &impl Print, err: &impl Print) {
    let code = [
        // addi r1, r0, 0x1000
        0x38201000,
        // lvx v1, r0, r1
        0x7c2008ce,
        // vspltisw v2, 0
        0x1040038c,
        // vsum4ubs v3, v1, v2
        0x10611608,
        // vsumsws v4, v3, v2
        0x10831788,
        // addi r2, r0, 0x100c
        0x3840100c,
        // stvewx v4, r0, r2
        0x7c80118e,
    ];
    let mut mem = ramp();
    tell(
        rt,
        err,
        "the sum of sixteen bytes",
        &code,
        &mut mem,
        0x1000,
        0,
        100,
    );
}

pub fn all(rt: &impl Print, err: &impl Print) {
    elements_read(rt, err);
    elements_written(rt, err);
    line_copied(rt, err);
    unaligned_read(rt, err);
    unaligned_write(rt, err);
    sat_stays(rt, err);
    status_both(rt, err);
    target_is_source(rt, err);
    summaries(rt, err);
    none_true(rt, err);
    correction(rt, err);
    correction_clipped(rt, err);
    widened_sum(rt, err);
}
