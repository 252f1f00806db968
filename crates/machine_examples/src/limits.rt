// Document 01's address examples, and where a run stops.
use crate::show::{counted, line, tell};

fn last_byte_of_the_line(rt: &impl Print, err: &impl Print) {
    let code = [
        // addi r1, r0, 0x100f
        0x3820100f,
        // lvx v1, r0, r1
        0x7c2008ce,
    ];
    let mut mem = line();
    tell(
        rt,
        err,
        "lvx at 0x100F, in a memory of 16 bytes at 0x1000",
        &code,
        &mut mem,
        0x1000,
        0,
        100,
    );
}

fn one_past_the_end(rt: &impl Print, err: &impl Print) {
    let code = [
        // addi r1, r0, 0x1010
        0x38201010,
        // lvx v1, r0, r1
        0x7c2008ce,
    ];
    let mut mem = line();
    tell(
        rt,
        err,
        "lvx at 0x1010, in the same memory",
        &code,
        &mut mem,
        0x1000,
        0,
        100,
    );
}

fn wrapped_sum(rt: &impl Print, err: &impl Print) {
    let code = [
        // addi r1, r0, 0x1002
        0x38201002,
        // addi r2, r0, -1
        0x3840ffff,
        // lvx v1, r1, r2
        0x7c2110ce,
    ];
    let mut mem = line();
    tell(
        rt,
        err,
        "rA 0x1002 plus rB 0xFFFFFFFF is 0x1001",
        &code,
        &mut mem,
        0x1000,
        0,
        100,
    );
}

fn end_of_the_addresses(rt: &impl Print, err: &impl Print) {
    let code = [
        // addi r1, r0, -1
        0x3820ffff,
        // lvx v1, r0, r1
        0x7c2008ce,
    ];
    let mut mem = line();
    tell(
        rt,
        err,
        "a memory that ends at 2^32",
        &code,
        &mut mem,
        0xfffffff0,
        0,
        100,
    );
}

fn beyond_the_addresses(rt: &impl Print, err: &impl Print) {
    let code = [
        // addi r1, r0, -1
        0x3820ffff,
    ];
    let mut mem: [u8; 32] = counted();
    tell(
        rt,
        err,
        "a memory that would end beyond 2^32",
        &code,
        &mut mem,
        0xfffffff0,
        0,
        100,
    );
}

fn uneven_length(rt: &impl Print, err: &impl Print) {
    let code = [
        // addi r1, r0, 1
        0x38200001,
    ];
    let mut mem: [u8; 24] = counted();
    tell(
        rt,
        err,
        "a memory of 24 bytes",
        &code,
        &mut mem,
        0x1000,
        0,
        100,
    );
}

fn number_zero(rt: &impl Print, err: &impl Print) {
    let code = [
        // addi r0, r0, 0x1000
        0x38001000,
        // addi r1, r0, 0x1004
        0x38201004,
        // lvx v1, r0, r1
        0x7c2008ce,
        // addi r0, r0, 5
        0x38000005,
    ];
    let mut mem = line();
    tell(
        rt,
        err,
        "field 0 means the number 0, and not general register 0",
        &code,
        &mut mem,
        0x1000,
        0,
        100,
    );
}

fn start_beyond(rt: &impl Print, err: &impl Print) {
    let code = [
        // addi r1, r0, 1
        0x38200001,
    ];
    let mut mem = line();
    tell(
        rt,
        err,
        "a start beyond the code",
        &code,
        &mut mem,
        0x1000,
        2,
        100,
    );
}

fn allowance_at_the_end(rt: &impl Print, err: &impl Print) {
    let code = [
        // addi r1, r0, 1
        0x38200001,
    ];
    let mut mem = line();
    tell(
        rt,
        err,
        "allowance 0 at the end of the code",
        &code,
        &mut mem,
        0x1000,
        1,
        0,
    );
}

fn allowance_before_the_end(rt: &impl Print, err: &impl Print) {
    let code = [
        // addi r1, r0, 1
        0x38200001,
    ];
    let mut mem = line();
    tell(
        rt,
        err,
        "allowance 0 before the end of the code",
        &code,
        &mut mem,
        0x1000,
        0,
        0,
    );
}

fn allowance_used_up(rt: &impl Print, err: &impl Print) {
    let code = [
        // addi r1, r0, 1
        0x38200001,
        // addi r2, r0, 2
        0x38400002,
        // addi r3, r0, 3
        0x38600003,
    ];
    let mut mem = line();
    tell(
        rt,
        err,
        "allowance 2 for three words",
        &code,
        &mut mem,
        0x1000,
        0,
        2,
    );
}

fn unknown_word(rt: &impl Print, err: &impl Print) {
    let code = [
        // addi r1, r0, 1
        0x38200001,
        // no instruction
        0x00000000,
        // addi r2, r0, 2
        0x38400002,
    ];
    let mut mem = line();
    tell(
        rt,
        err,
        "a word that is no instruction, after one that is",
        &code,
        &mut mem,
        0x1000,
        0,
        100,
    );
}

fn reserved_bit(rt: &impl Print, err: &impl Print) {
    let code = [
        // addi r1, r0, 0x2000
        0x38202000,
        // stvx v1, r0, r1,  with its last bit set
        0x7c2009cf,
    ];
    let mut mem = line();
    tell(
        rt,
        err,
        "stvx with its last bit set, and an address outside: 6 comes before 7",
        &code,
        &mut mem,
        0x1000,
        0,
        100,
    );
}

pub fn all(rt: &impl Print, err: &impl Print) {
    last_byte_of_the_line(rt, err);
    one_past_the_end(rt, err);
    wrapped_sum(rt, err);
    end_of_the_addresses(rt, err);
    beyond_the_addresses(rt, err);
    uneven_length(rt, err);
    number_zero(rt, err);
    start_beyond(rt, err);
    allowance_at_the_end(rt, err);
    allowance_before_the_end(rt, err);
    allowance_used_up(rt, err);
    unknown_word(rt, err);
    reserved_bit(rt, err);
}
