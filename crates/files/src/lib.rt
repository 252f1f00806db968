// Files, whole; and what is told on standard error where something is wrong: a line that names the file or the argument, and says why.
#![tactic(auto)]

ghost use Rattle.std.specs.Prelude.{◌≡◌, ◌≤◌, ◌<◌, ◌++◌, ℕ, List, IsUtf8, IsErr, IsErrOf, IfOk, OnErr, MatchResult, length, take, codes, vec_len, string_bytes};
ghost use Rattle.texts.specs.Texts.{hex_of};
ghost use Rattle.files.specs.declared.FileError.TheVariants.{NameTooLong};
ghost use Rattle.std.specs.Io.{ReadsAtMost};
ghost use Rattle.std.specs.Io.KnownBytes.{Consumes, IsAtEnd};

use std::alloc::Global;
use std::error::Error;
use std::fmt::Display;
use std::fs::{File, OpenFile, OpenOptions};
use std::io::{Cursor, ErrorKind, Read, Write};
use std::random::RandomSource;
use std::rt::Files;
use std::{fmt, fs, io, str};
use texts::Hex;

// Why a file is not read or not written.
#[derive(Debug, Clone, Copy)]
pub enum FileError {
    Io(io::Error),
    // It has more bytes than the most that are taken.
    TooLong(usize),
    NameTooLong,
}

impl Display for FileError {
    fn fmt<W: fmt::Write>(&self, f: &mut fmt::Formatter<W>) -> fmt::Result {
        match self {
            FileError::Io(error) => write!(f, "{}", Reason(error)),
            FileError::TooLong(most) => write!(f, "longer than {most} bytes"),
            FileError::NameTooLong => f.write_str("the name is too long"),
        }
    }
}

impl Error for FileError {}

impl From<io::Error> for FileError {
    fn from(error: io::Error) -> FileError {
        FileError::Io(error)
    }
}

// The most bytes of an error's text that are told; those of the system and of std are shorter. It needs no allocator, since an error may be that
// there is no memory.
const LONGEST_TEXT: usize = 320;

// An error's text without the number of the system's that std puts behind it.
#[derive(Clone, Copy)]
pub struct Reason<'a>(pub &'a io::Error);

impl Display for Reason<'_> {
    fn fmt<W: fmt::Write>(&self, f: &mut fmt::Formatter<W>) -> fmt::Result {
        let mut text = Cursor::new([0u8; LONGEST_TEXT]);
        let _ = write!(text, "{}", self.0);
        let end = text.position().min(LONGEST_TEXT as u64) as usize;
        let said = str::from_utf8(&text.get_ref()[..end]).unwrap_or("");
        f.write_str(match said.rsplit_once(" (os error ") {
            Some((name, _)) => name,
            None => said,
        })
    }
}

// Reads to the end of the input or of buf, and answers how many bytes there were; they stand at the front of buf, as what was read before
// does where a read fails. A read that a signal interrupts is told as an error, which std's read_to_end would take up again.
pub fn fill<R: Read>(reader: &mut R, buf: &mut [u8]) -> io::Result<usize>
    ensures count { ReadsAtMost result buf.new }
    ensures given { IfOk result (λ n. Consumes (R.remaining reader.old) (R.remaining reader.new) (take n buf.new)) }
    ensures end { IfOk result (λ n. n < length buf.new → IsAtEnd (R.remaining reader.new)) }
    ensures kept { length buf.new ≡ length buf.old }
    ensures none_lost { OnErr result ((n : ℕ) × (n ≤ length buf.new) × Consumes (R.remaining reader.old) (R.remaining reader.new) (take n buf.new)) }
{
    let mut done = 0;
    while done < buf.len() {
        let more = reader.read(&mut buf[done..])?;
        if more == 0 {
            break;
        }
        done += more;
    }
    Ok(done)
}

// The first room for what is read, and, but for the last time, the least by which it grows: more than the programs take at once, so that they
// read into one piece.
const FIRST_ROOM: usize = 131072;

// Reads to the end of the input, and no more than limit bytes. The room for them grows as the input fills it, so that a short input costs
// little under any limit; whoever wants one piece of memory from the start lends it to `fill`.
pub fn read_all<R: Read>(reader: &mut R, limit: usize, alloc: Global) -> io::Result<Vec<u8>>
    ensures within { IfOk result (λ bytes. vec_len bytes ≤ limit) }
    ensures given { IfOk result (λ bytes. Consumes (R.remaining reader.old) (R.remaining reader.new) bytes.items) }
    ensures end { IfOk result (λ bytes. vec_len bytes < limit → IsAtEnd (R.remaining reader.new)) }
{
    let mut bytes = Vec::new(alloc);
    let mut n = 0;
    while n == bytes.len() && n < limit {
        let room = (limit - n).min(n.max(FIRST_ROOM));
        bytes.reserve_exact(room)?;
        bytes.resize(n + room, 0)?;
        n += fill(reader, &mut bytes[n..])?;
    }
    bytes.truncate(n);
    Ok(bytes)
}

// Writes bytes; that they could not be written is told to nobody.
pub fn say(to: &impl Print, bytes: &[u8]) {
    let _ = to.write_all(bytes);
}

// A line on standard error: what it is about, and what is wrong with it, in bytes that need not be text.
pub fn complain(err: &impl Print, what: &[u8], wrong: &[u8]) {
    say(err, what);
    say(err, b": ");
    say(err, wrong);
    say(err, b"\n");
}

// The same line, where a value says what is wrong.
pub fn complain_of(err: &impl Print, what: &[u8], wrong: &impl Display) {
    say(err, what);
    say(err, b": ");
    let _ = err.println(wrong);
}

// A path as text, since files are opened by text alone.
pub fn name_of(path: &[u8]) -> io::Result<&str>
    ensures { MatchResult result (λ name. (name.now ≡ path.now) × IsUtf8 path.now) (λ e. ¬ (IsUtf8 path.now)) }
{
    match str::from_utf8(path) {
        Ok(name) => Ok(name),
        Err(_) => Err(io::Error::new(ErrorKind::InvalidFilename, "the name is not UTF-8")),
    }
}

// All of a file. It refuses one that cannot be read, and one of more bytes than limit.
pub fn read_file<R: Files>(
    rt: &R,
    path: &[u8],
    limit: usize,
    alloc: Global,
) -> Result<Vec<u8>, FileError>
    ensures within { IfOk result (λ bytes. vec_len bytes ≤ limit) }
    ensures named { ¬ (IsUtf8 path.now) → IsErr result }
{
    let mut file = File::open(rt, name_of(path)?)?;
    let bytes = read_all(&mut file, limit.saturating_add(1), alloc)?;
    if bytes.len() > limit {
        return Err(FileError::TooLong(limit));
    }
    Ok(bytes)
}

// Writes all, to the disk, and closes the file.
fn put<F: Write + OpenFile + Drop>(mut file: F, bytes: &[u8]) -> io::Result<()> {
    file.write_all(bytes)?;
    file.sync_all()
}

// Fills the file of the name part, and gives it the name path.
fn put_as<R: Files>(rt: &R, file: R::File, bytes: &[u8], part: &str, path: &str) -> io::Result<()> {
    put(file, bytes)?;
    fs::rename(rt, part, path)
}

// Writes the file of the name path by way of a new one of the name part, which is gone after an error.
fn put_beside<R: Files>(rt: &R, part: &str, path: &str, bytes: &[u8]) -> io::Result<()> {
    let file = OpenOptions::new()
        .write(true)
        .create_new(true)
        .open(rt, part)?;
    let done = put_as(rt, file, bytes, part, path);
    if done.is_err() {
        let _ = fs::remove_file(rt, part);
    }
    done
}

// The name of the file that is written before it takes its own name, with eight random digits.
fn part_name(rt: &impl RandomSource, path: &str, alloc: Global) -> io::Result<String>
    ensures beside { IfOk result (λ name. (r : List ℕ) × (length r ≡ 4) × (string_bytes name ≡ path.now ++ (codes "." ++ hex_of r ++ codes ".part"))) }
{
    let mut random = [0u8; 4];
    let _ = rt.fill_bytes(&mut random);
    Ok(format!(in alloc; "{path}.{}.part", Hex(&random))?)
}

// Writes a file beside the one that is meant and renames it, so that it is there whole or is as it was.
pub fn write_whole<R: Files + RandomSource>(
    rt: &R,
    path: &[u8],
    bytes: &[u8],
    alloc: Global,
) -> Result<(), FileError>
    ensures long { 4000 < length path.now → IsErrOf result NameTooLong }
    ensures named { ¬ (IsUtf8 path.now) → IsErr result }
{
    if 4000 < path.len() {
        return Err(FileError::NameTooLong);
    }
    let name = name_of(path)?;
    let part = part_name(rt, name, alloc)?;
    Ok(put_beside(rt, part.as_str(), name, bytes)?)
}

#[cfg(test)]
mod tests {
    use super::*;
    use std::test::Fail;

    // That there is memory for it, no contract says.
    #[test]
    fn reads_to_the_end_or_to_the_limit(rt: HostRuntime) -> Result<(), Fail> {
        let mut input = Cursor::new(*b"kernel");
        let start = read_all(&mut input, 4, rt.alloc())?;
        assert_eq!(rt; start.as_slice(), b"kern".as_slice());
        let rest = read_all(&mut input, 4, rt.alloc())?;
        assert_eq!(rt; rest.as_slice(), b"el".as_slice());
        Ok(())
    }

    #[test]
    fn reads_a_short_input_under_any_limit(rt: HostRuntime) -> Result<(), Fail> {
        let mut input = Cursor::new(*b"kernel");
        let all = read_all(&mut input, usize::MAX, rt.alloc())?;
        assert_eq!(rt; all.as_slice(), b"kernel".as_slice());
        Ok(())
    }

    #[test]
    fn fills_a_lent_buffer(rt: HostRuntime) -> Result<(), Fail> {
        let mut input = Cursor::new(*b"kernel");
        let mut four = [0u8; 4];
        let first = fill(&mut input, &mut four)?;
        assert_eq!(rt; first, 4);
        assert_eq!(rt; four.as_slice(), b"kern".as_slice());
        let rest = fill(&mut input, &mut four)?;
        assert_eq!(rt; rest, 2);
        assert_eq!(rt; four[..rest], b"el"[..]);
        Ok(())
    }

    // Gives one byte, and fails from then on.
    #[derive(Drop)]
    struct Failing {
        given: bool,
    }

    impl Read for Failing {
        fn read(&mut self, buf: &mut [u8]) -> io::Result<usize> {
            if self.given || buf.is_empty() {
                return Err(io::Error::from(ErrorKind::Other));
            }
            self.given = true;
            buf[0] = 107;
            Ok(1)
        }
    }

    #[test]
    fn keeps_what_was_read_before_an_error(rt: HostRuntime) -> Result<(), Fail> {
        let mut input = Failing { given: false };
        let mut four = [0u8; 4];
        assert!(rt; fill(&mut input, &mut four).is_err());
        assert_eq!(rt; four[..1], b"k"[..]);
        Ok(())
    }

    // The room grows from one piece to two, and to four.
    #[test]
    fn reads_more_than_the_first_room(rt: HostRuntime) -> Result<(), Fail> {
        let mut long = vec![in rt.alloc(); 1; 2 * FIRST_ROOM]?;
        long.resize(3 * FIRST_ROOM, 2)?;
        let mut input = Cursor::new(long.as_slice());
        let all = read_all(&mut input, usize::MAX, rt.alloc())?;
        assert_eq!(rt; all.as_slice(), long.as_slice());
        Ok(())
    }
}
