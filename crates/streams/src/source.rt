// A reader that may promise that no read of it fails, and the front of what it has left.
ghost use Rattle.std.specs.Prelude.{◌≡◌, ℕ, List, Option, None, Some, ⊤, ◌<◌, ◌≤◌, ◌+◌, IfOk, IfErr, IfSome, IsOk, OnOk, OnErr, length, take, drop};
ghost use Rattle.std.specs.Io.{ReadsAtMost};
ghost use Rattle.std.specs.IoError.{error_kind};
ghost use Rattle.std.specs.declared.io.ErrorKind.{ErrorKind};
ghost use Rattle.std.specs.Io.KnownBytes.{Consumes, IsAtEnd, Keeps, ReadConsumes};

use std::io;
use std::io::{ErrorKind, Read};

/// What gives bytes.
pub trait Source {
    // The bytes that reads will give from here on, where they are known.
    ghost left: { Self → Option (List ℕ) } = { λ _. None };

    // No read fails from here on.
    ghost gives: { Self → Type 0 } = { λ _. ⊥ };

    // The kinds of error that a read may fail with.
    ghost fails: { ErrorKind → Type 0 } = { λ _. ⊤ };

    /// Reads once.
    fn read(&mut self, room: &mut [u8]) -> io::Result<usize>
        ensures bound { ReadsAtMost result room.new }
        ensures bytes { ReadConsumes (left self.old) (left self.new) result room.new }
        ensures kind { IfErr result (λ e. fails (error_kind e)) }
        ensures succeeds { gives self.old → IsOk result }
        ensures gives_on { gives self.old → gives self.new };
}

/// A reader of std's, such as a terminal: nothing is known of when it fails.
#[derive(Drop)]
pub struct Reader<R>(pub R);

impl<R: Read> Source for Reader<R> {
    ghost left = { λ s. R.remaining s.0 };

    fn read(&mut self, room: &mut [u8]) -> io::Result<usize> {
        self.0.read(room)
    }
}

/// Bytes in memory, of which no read fails.
impl Source for &[u8] {
    ghost left = { λ s. Some s.now };

    ghost gives = { λ _. ⊤ };

    fn read(&mut self, room: &mut [u8]) -> io::Result<usize> {
        Read::read(self, room)
    }
}

// Reads again while a signal interrupts the read.
fn again<S: Source>(source: &mut S, room: &mut [u8], first: io::Error) -> io::Result<usize>
    requires { S.fails (error_kind first) }
    ensures bound { ReadsAtMost result room.new }
    ensures bytes { ReadConsumes (S.left source.old) (S.left source.new) result room.new }
    ensures kind { IfErr result (λ e. S.fails (error_kind e)) }
{
    let mut error = first;
    for _ in 0..u64::MAX {
        if error.kind() != ErrorKind::Interrupted {
            return Err(error);
        }
        match source.read(room) {
            Ok(n) => return Ok(n),
            Err(e) => error = e,
        }
    }
    Err(error)
}

// One read, repeated where a signal interrupts it.
fn read_once<S: Source>(source: &mut S, room: &mut [u8]) -> io::Result<usize>
    ensures bound { ReadsAtMost result room.new }
    ensures bytes { IfOk result (λ n. Consumes (S.left source.old) (S.left source.new) (take n room.new)) }
    ensures end { IfOk result (λ n. n ≡ 0 → 0 < length room.old → IsAtEnd (S.left source.new)) }
    ensures kind { IfErr result (λ e. S.fails (error_kind e)) }
    ensures succeeds { S.gives source.old → IsOk result }
    ensures gives_on { S.gives source.old → S.gives source.new }
{
    match source.read(room) {
        Ok(n) => Ok(n),
        Err(e) => again(source, room, e),
    }
}

// One read into the room from `at` on.
fn read_at<S: Source>(source: &mut S, room: &mut [u8], at: usize) -> io::Result<usize>
    requires { at < length room.old }
    ensures front { take at room.new ≡ take at room.old }
    ensures fits { IfOk result (λ n. at + n ≤ length room.new) }
    ensures bytes { IfOk result (λ n. Consumes (S.left source.old) (S.left source.new)
        (take n (drop at room.new))) }
    ensures end { IfOk result (λ n. n ≡ 0 → IsAtEnd (S.left source.new)) }
    ensures kind { IfErr result (λ e. S.fails (error_kind e)) }
    ensures succeeds { S.gives source.old → IsOk result }
    ensures gives_on { S.gives source.old → S.gives source.new }
{
    read_once(source, &mut room[at..])
}

/// Reads until the room is full or nothing is left. Where the source's reads don't fail, nor does
/// this; else it fails with an error of a read. Of what the source has left after an error nothing
/// is said: reads before it have taken bytes, and no caller reads on.
pub fn read_front<S: Source>(source: &mut S, room: &mut [u8]) -> io::Result<usize>
    ensures fits { IfOk result (λ n. n ≤ length room.new) }
    ensures bytes { IfOk result (λ n. IfSome (S.left source.old)
        (λ bytes. take n room.new ≡ take (length room.old) bytes)) }
    ensures taken { IfOk result (λ n. Consumes (S.left source.old) (S.left source.new)
        (take n room.new)) }
    ensures kind { IfErr result (λ e. S.fails (error_kind e)) }
    ensures succeeds { S.gives source.old → IsOk result }
    ensures gives_on { S.gives source.old → S.gives source.new }
{
    let mut at = 0;
    while at < room.len() {
        let n = read_at(source, room, at)?;
        if n == 0 {
            return Ok(at);
        }
        at += n;
    }
    Ok(at)
}
