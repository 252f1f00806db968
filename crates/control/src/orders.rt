// What is to be done for a word.

use encodings::ops::Op;

// Bytes of a line of the memory: where the line starts, their place in it, and how many they are.
#[derive(Clone, Copy)]
pub struct Element {
    pub at: usize,
    pub place: usize,
    pub bytes: usize,
}

// What is to be done. The registers are those of the decoded word.
#[derive(Clone, Copy)]
pub enum Order {
    // addi: general register D gets this value.
    SetGeneral(u32),
    // The vector instruction.
    Compute(Op),
    // mfvscr: D gets the status word.
    ReadStatus,
    // mtvscr: the status word is taken from B.
    WriteStatus,
    // lvsl, lvsr: D gets the pattern of these low four bits of the address.
    PatternLeft(usize),
    PatternRight(usize),
    // lvx, lvxl: D gets the line at this place of the memory.
    ReadLine(usize),
    // stvx, stvxl: D goes to the line at this place of the memory.
    WriteLine(usize),
    // lvebx, lvehx, lvewx: D gets these bytes, at their place in the line; its other bytes are zero.
    ReadElement(Element),
    // stvebx, stvehx, stvewx: the bytes of D at this place go there.
    WriteElement(Element),
}
