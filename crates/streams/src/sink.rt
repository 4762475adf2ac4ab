// A writer of whole texts that may promise that it takes them.
ghost use Rattle.std.specs.Prelude.{◌≡◌, ℕ, List, Option, None, Some, ◌+◌, ◌≤◌, IsOk, OnOk, length, vec_len, vec_capacity};
ghost use Rattle.std.specs.Io.KnownBytes.{Appends};

use std::io;
use std::io::Write;

/// What takes texts.
pub trait Sink {
    // The bytes that it holds, where they are known.
    ghost contents: { Self → Option (List ℕ) } = { λ _. None };

    // It takes this text.
    ghost takes: { Self → List ℕ → Type 0 } = { λ _ _. ⊥ };

    /// Writes all of a text.
    fn put(&mut self, text: &[u8]) -> io::Result<()>
        ensures bytes { OnOk result (Appends (contents self.old) (contents self.new) text.now) }
        ensures succeeds { takes self.old text.now → IsOk result };
}

/// A writer of std's, such as a terminal: nothing is known of when it fails.
#[derive(Drop)]
pub struct Writer<W>(pub W);

impl<W: Write> Sink for Writer<W> {
    ghost contents = { λ w. W.contents w.0 };

    fn put(&mut self, text: &[u8]) -> io::Result<()> {
        self.0.write_all(text)
    }
}

/// Bytes in memory, which take as many more as they have room for.
impl Sink for Vec<u8> {
    ghost contents = { λ v. Some v.items };

    ghost takes = { λ v text. vec_len v + length text ≤ vec_capacity v };

    fn put(&mut self, text: &[u8]) -> io::Result<()> {
        self.extend_from_slice(text)?;
        Ok(())
    }
}
