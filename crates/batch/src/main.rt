// Many runs in one start, for the comparison with another emulator: cases in binary from standard input, a reply for each (docs/TESTING.md).
#![tactic(auto)]

use files::say;
use machine::Ran;
use std::io::Read;
use texts::put_words;

fn reply(rt: &impl Print, ran: Ran, memory: &[u8]) {
    let Ran { report, m } = ran;
    let mut head = [0u8; 12];
    put_words(
        &[u32::from(report.answer), report.count, report.place],
        &mut head,
    );
    say(rt, &head);
    let mut image = [0u8; 660];
    states::state_of(m, &mut image);
    say(rt, &image);
    say(rt, memory);
}

// The next case, where there is a whole one that the buffers hold; each is lent from its start.
fn next(
    input: &mut impl Read,
    rt: &impl Print,
    bytes: &mut [u8],
    code: &mut [u32],
    memory: &mut [u8],
) -> Option<()> {
    let mut head_bytes = [0u8; 20];
    input.read_exact(&mut head_bytes).ok()?;
    let mut head = [0u32; 5];
    reading::words(&head_bytes, &mut head)?;
    let [words, size, base, place, allowance] = head;
    let bytes = bytes.get_mut(..4 * (words as usize))?;
    let memory = memory.get_mut(..size as usize)?;
    input.read_exact(bytes).ok()?;
    input.read_exact(memory).ok()?;
    let mut image = [0u8; 660];
    input.read_exact(&mut image).ok()?;
    let count = reading::words(bytes, code)?;
    let m = states::machine_of(&image)?;
    let ran = m.run(&code[..count], memory, base, place, allowance);
    reply(rt, ran, memory);
    Some(())
}

// Cases to the end of the input; not more than 4,294,967,295 of them. The buffers are of the largest that there can be, and no case allocates.
fn main(rt: HostRuntime) {
    let mut input = rt.stdin();
    let mut bytes = [0u8; 65540];
    let mut code = [0u32; 16385];
    let mut memory = [0u8; 65552];
    for _ in 0..u32::MAX {
        if next(&mut input, &rt, &mut bytes, &mut code, &mut memory).is_none() {
            return;
        }
    }
}
