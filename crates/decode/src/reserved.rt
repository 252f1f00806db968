// Reserved bits: document 01, "Encodings". An operation has one run of them, or none.
ghost use Rattle.std.specs.Prelude.{◌≡◌};
ghost use Rattle.decode.specs.Reserved.{any_of, without};

#[derive(Clone, Copy)]
pub enum Run {
    // No bit; a run as the others are, whose end is before its start.
    Empty,
    // Bit 31.
    Last,
    // Bit 21.
    BeforeCount,
    // The field A.
    A,
    // The field B.
    B,
    // The fields A and B.
    AB,
    // The fields D and A.
    DA,
    // What stands before a splat's lane number: the first bit of A, the first two or the first three.
    BeforeByteLane,
    BeforeHalfLane,
    BeforeWordLane,
}

// Both go by constants: with the place and the size of each run as numbers there would be a third table, and each run would be a pair in it.

// Whether a bit of the run is set.
pub fn any(run: Run, word: u32) -> bool
    ensures { result ≡ any_of run word }
{
    match run {
        Run::Empty => false,
        Run::Last => word % 2 != 0,
        Run::BeforeCount => word / 1024 % 2 != 0,
        Run::A => word / 65536 % 32 != 0,
        Run::B => word / 2048 % 32 != 0,
        Run::AB => word / 2048 % 1024 != 0,
        Run::DA => word / 65536 % 1024 != 0,
        Run::BeforeByteLane => word / 1048576 % 2 != 0,
        Run::BeforeHalfLane => word / 524288 % 4 != 0,
        Run::BeforeWordLane => word / 262144 % 8 != 0,
    }
}

// The word with the bits of the run cleared.
pub fn clear(run: Run, word: u32) -> u32
    ensures { result ≡ without run word }
{
    match run {
        Run::Empty => word,
        Run::Last => word - word % 2,
        Run::BeforeCount => word - word / 1024 % 2 * 1024,
        Run::A => word - word / 65536 % 32 * 65536,
        Run::B => word - word / 2048 % 32 * 2048,
        Run::AB => word - word / 2048 % 1024 * 2048,
        Run::DA => word - word / 65536 % 1024 * 65536,
        Run::BeforeByteLane => word - word / 1048576 % 2 * 1048576,
        Run::BeforeHalfLane => word - word / 524288 % 4 * 524288,
        Run::BeforeWordLane => word - word / 262144 % 8 * 262144,
    }
}
