// Standard input and output of the programs: input read to its end, output written whole. Neither a read nor a write is tried again: none of the programs
// handles a signal, so none is interrupted.
#![tactic(auto)]

ghost use Rattle.std.specs.Prelude.{◌≡◌, ℕ, ◌<◌, ◌≤◌, length, take, IfOk, OnOk, MatchResult};
ghost use Rattle.std.specs.Io.KnownBytes.{Appends, Consumes, IsAtEnd};

use std::io;
use std::io::{ErrorKind, Read, Write};

// Reads until the slice is full or the input ends, and answers how many bytes were read. Where a read fails, its error is the answer; the bytes before it stand at
// the front of the slice, and only `read_until_stopped` says how many they are.
pub fn read<R: Read>(from: &mut R, text: &mut [u8]) -> io::Result<usize>
    ensures within { IfOk result (λ n. n ≤ length text.new) }
    ensures counted { IfOk result (λ n. n ≡ length (take n text.new)) }
    ensures bytes { MatchResult result
        (λ n. Consumes (R.remaining from.old) (R.remaining from.new) (take n text.new))
        (λ _. (n : ℕ) × (n ≤ length text.new) × Consumes (R.remaining from.old) (R.remaining from.new) (take n text.new)) }
    ensures whole { IfOk result (λ n. n < length text.new → IsAtEnd (R.remaining from.new)) }
{
    let mut done = 0;
    while done < text.len() {
        match from.read(&mut text[done..])? {
            0 => return Ok(done),
            more => done += more,
        }
    }
    Ok(done)
}

// A read failed, behind so many bytes that were read.
#[derive(Clone, Copy)]
pub struct Stopped {
    pub count: usize,
}

// Reads until the slice is full, the input ends or a read fails, and answers how many bytes were read: they stand at the front of the slice.
pub fn read_until_stopped<R: Read>(from: &mut R, text: &mut [u8]) -> Result<usize, Stopped>
    ensures within { MatchResult result (λ n. n ≤ length text.new) (λ stopped. stopped.count ≤ length text.new) }
    ensures counted { MatchResult result (λ n. n ≡ length (take n text.new)) (λ stopped. stopped.count ≡ length (take stopped.count text.new)) }
    ensures bytes { MatchResult result
        (λ n. Consumes (R.remaining from.old) (R.remaining from.new) (take n text.new))
        (λ stopped. Consumes (R.remaining from.old) (R.remaining from.new) (take stopped.count text.new)) }
    ensures whole { IfOk result (λ n. n < length text.new → IsAtEnd (R.remaining from.new)) }
{
    let mut done: usize = 0;
    while done < text.len() {
        match from.read(&mut text[done..]) {
            Ok(0) => return Ok(done),
            Ok(more) => done += more,
            Err(_) => return Err(Stopped { count: done }),
        }
    }
    Ok(done)
}

// Writes all of the bytes. It stops at the first write that takes nothing or fails, where a front of them is written.
pub fn write<W: Write>(to: &mut W, bytes: &[u8]) -> io::Result<()>
    ensures all { OnOk result (Appends (W.contents to.old) (W.contents to.new) bytes.now) }
    ensures front { (n : ℕ) × (n ≤ length bytes.now) × Appends (W.contents to.old) (W.contents to.new) (take n bytes.now) }
{
    let mut done = 0;
    while done < bytes.len() {
        match to.write(&bytes[done..])? {
            0 => return Err(ErrorKind::WriteZero.into()),
            more => done += more,
        }
    }
    Ok(())
}

#[cfg(test)]
mod tests {
    use super::*;
    use std::test::Fail;

    // Gives its bytes one by one, and fails behind them.
    #[derive(Drop)]
    struct Broken {
        bytes: &'static [u8],
    }

    impl Read for Broken {
        fn read(&mut self, buf: &mut [u8]) -> io::Result<usize> {
            if self.bytes.is_empty() {
                return Err(ErrorKind::BrokenPipe.into());
            }
            if buf.is_empty() {
                return Ok(0);
            }
            buf[0] = self.bytes[0];
            self.bytes = &self.bytes[1..];
            Ok(1)
        }
    }

    #[test]
    fn a_slice_is_filled_or_the_input_ends(rt: HostRuntime) -> Result<(), Fail> {
        let mut text = [0u8; 3];
        let mut from: &[u8] = b"abcd";
        assert_eq!(rt; read(&mut from, &mut text)?, 3);
        assert_eq!(rt; text, *b"abc");
        assert_eq!(rt; read(&mut from, &mut text)?, 1);
        assert_eq!(rt; text, *b"dbc");
        assert_eq!(rt; read(&mut from, &mut text)?, 0);
        assert_eq!(rt; read(&mut from, &mut [])?, 0);
        Ok(())
    }

    #[test]
    fn a_failed_read_hands_on_its_error_or_its_count(rt: HostRuntime) -> Result<(), Fail> {
        let mut text = [0u8; 3];
        let error = read(&mut Broken { bytes: b"ab" }, &mut text)
            .err()
            .ok_or("no error")?;
        assert_eq!(rt; error.kind(), ErrorKind::BrokenPipe);
        assert_eq!(rt; text, *b"ab\0");
        let stopped = read_until_stopped(&mut Broken { bytes: b"ab" }, &mut text);
        assert_eq!(rt; stopped.err().ok_or("no error")?.count, 2);
        assert_eq!(rt; read(&mut Broken { bytes: b"abc" }, &mut text)?, 3);
        Ok(())
    }
}
