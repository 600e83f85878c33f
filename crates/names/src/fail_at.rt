//! A reader or a writer for tests: one of its calls fails.
ghost use Rattle.std.specs.Prelude.{◌≡◌, IfOk, IfSome, IsSome, None};
ghost use Rattle.std.specs.Io.{ReadsAtMost, WritesAtMost};
ghost use Rattle.std.specs.Io.KnownBytes.{ReadConsumes, WriteAppends};
ghost use Rattle.names.specs.FailsAt.{Meets};

use std::io::{self, ErrorKind, Read, Write};

/// How the call fails.
#[derive(Clone, Copy, Debug)]
pub enum Fault {
    /// It returns an error of this kind.
    Answers(ErrorKind),
    /// It moves no byte: a read finds the end, and a write takes nothing.
    MovesNothing,
}

/// A reader or a writer that counts its calls, and passes all on but one, which fails. It is for tests.
#[derive(Drop)]
pub struct FailAt<T> {
    inner: T,
    /// The number of the call that fails, from 0.
    pub at: u64,
    /// How it fails.
    pub fault: Fault,
    /// How many calls were made: reads, writes and flushes.
    pub calls: u64,
    /// The most bytes that a call moves, `usize::MAX` at first.
    pub most: usize,
}

impl<T> FailAt<T> {
    /// Makes a reader or a writer that passes the calls on, but for the one of this number, from 0.
    pub fn new(inner: T, at: u64, fault: Fault) -> FailAt<T>
        ensures at { result.at ≡ at }
        ensures fault { result.fault ≡ fault }
        ensures calls { result.calls ≡ 0 }
    {
        FailAt {
            inner,
            at,
            fault,
            calls: 0,
            most: usize::MAX,
        }
    }

    // Counts a call, and returns what it returns if it is the one that fails.
    fn take_turn(&mut self) -> Option<io::Result<usize>>
        ensures none { IfSome result (λ answer. IfOk answer (λ n. n ≡ 0)) }
        ensures meets { IfSome result (λ answer. Meets self.old.fault answer) }
        ensures due { self.old.calls ≡ self.old.at → IsSome result }
    {
        let is_due = self.calls == self.at;
        self.calls = self.calls.saturating_add(1);
        if !is_due {
            return None;
        }
        Some(match self.fault {
            Fault::Answers(kind) => Err(io::Error::from(kind)),
            Fault::MovesNothing => Ok(0),
        })
    }
}

impl<R: Read> Read for FailAt<R> {
    fn read(&mut self, buf: &mut [u8]) -> io::Result<usize>
        ensures bound { ReadsAtMost result buf.new }
        ensures bytes { ReadConsumes None None result buf.new }
        ensures meets { self.old.calls ≡ self.old.at → Meets self.old.fault result }
    {
        if let Some(answer) = self.take_turn() {
            return answer;
        }
        let most = self.most.min(buf.len());
        self.inner.read(&mut buf[..most])
    }
}

impl<W: Write> Write for FailAt<W> {
    fn write(&mut self, buf: &[u8]) -> io::Result<usize>
        ensures bound { WritesAtMost result buf.now }
        ensures bytes { WriteAppends None None result buf.now }
        ensures meets { self.old.calls ≡ self.old.at → Meets self.old.fault result }
    {
        if let Some(answer) = self.take_turn() {
            return answer;
        }
        let most = self.most.min(buf.len());
        self.inner.write(&buf[..most])
    }

    /// Passes the flush on, or returns the error. A flush moves no byte, so `MovesNothing` leaves it as it is.
    fn flush(&mut self) -> io::Result<()> {
        if let Some(Err(error)) = self.take_turn() {
            return Err(error);
        }
        self.inner.flush()
    }
}
