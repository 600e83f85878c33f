//! A reader or a writer that notes whether a call through it failed, and whether one was made after.
ghost use Rattle.std.specs.Prelude.{◌≡◌, ◌||◌, ◌&&◌, true, false, is_err, OnOk};
ghost use Rattle.std.specs.Io.{ReadsAtMost, WritesAtMost};
ghost use Rattle.std.specs.Io.KnownBytes.{Appends, Keeps, ReadConsumes, WriteAppends};
ghost use Rattle.names_core.specs.Writes.{WritesText, is_write_fault};

use std::io::{self, ErrorKind, Read, Write};

/// A reader or a writer, with a note of whether a call through it failed.
///
/// A run has two watches, one of its reader and one of its writer. Each also notes whether a call through it may have come after
/// a failed call of the other: `settle_before` notes that no call so far did.
///
/// A read or a write fails if it returns an error, and a write also if it takes nothing of a text that isn't empty. An
/// interrupted call fails like any other, and isn't tried again.
#[derive(Drop)]
pub struct Watch<T> {
    /// Whether a call failed. It is false at first, and of the calls through the watch only one that fails sets it.
    pub failed: bool,
    inner: T,
    // Whether a call failed. `failed` is public, so a caller may set it back; nothing sets this back.
    met_fault: bool,
    // Whether a call was made after one had failed. Nothing sets it back.
    called_after_fault: bool,
    // Whether a call was made that may have followed a failed one of the watch beside this one.
    is_unsettled: bool,
}

impl<T> Watch<T> {
    ghost use Rattle.names_core.specs.Watched.{watched, met_fault, called_after_fault, is_unsettled};

    /// Makes a watch of a reader or a writer.
    pub fn new(inner: T) -> Watch<T>
        ensures failed { result.failed ≡ false }
        ensures watched { watched result ≡ inner }
        ensures met_fault { met_fault result ≡ false }
        ensures called_after { called_after_fault result ≡ false }
        ensures settled { is_unsettled result ≡ false }
    {
        Watch {
            failed: false,
            inner,
            met_fault: false,
            called_after_fault: false,
            is_unsettled: false,
        }
    }

    // Notes that no call so far came after a failed one of `other`, if `other` has had none yet.
    pub(crate) fn settle_before<U>(&mut self, other: &Watch<U>)
        ensures { self.new ≡ record self.old { is_unsettled = self.old.is_unsettled && other.now.met_fault } }
    {
        self.is_unsettled &= other.met_fault;
    }

    // Notes that a call was made, and whether it failed.
    fn note_call(&mut self, fault: bool)
        ensures { self.new ≡ record self.old {
          failed = fault || self.old.failed;
          met_fault = fault || self.old.met_fault;
          called_after_fault = self.old.met_fault || self.old.called_after_fault;
          is_unsettled = true;
        } }
    {
        self.called_after_fault |= self.met_fault;
        self.is_unsettled = true;
        self.failed |= fault;
        self.met_fault |= fault;
    }
}

impl<R: Read> Read for Watch<R> {
    ghost use Rattle.names_core.specs.Watched.{NotesCall};

    ghost remaining = { λ w. R.remaining w.inner };

    fn read(&mut self, buf: &mut [u8]) -> io::Result<usize>
        ensures bound { ReadsAtMost result buf.new }
        ensures bytes { ReadConsumes (R.remaining self.old.inner) (R.remaining self.new.inner) result buf.new }
        ensures failed { self.new.failed ≡ (is_err result || self.old.failed) }
        ensures noted { NotesCall self.old self.new (is_err result) }
    {
        let result = self.inner.read(buf);
        self.note_call(result.is_err());
        result
    }
}

impl<W: Write> Write for Watch<W> {
    ghost use Rattle.names_core.specs.Watched.{NotesCall};

    ghost contents = { λ w. W.contents w.inner };

    fn write(&mut self, buf: &[u8]) -> io::Result<usize>
        ensures bound { WritesAtMost result buf.now }
        ensures bytes { WriteAppends (W.contents self.old.inner) (W.contents self.new.inner) result buf.now }
        ensures failed { self.new.failed ≡ (is_write_fault result buf.now || self.old.failed) }
        ensures noted { NotesCall self.old self.new (is_write_fault result buf.now) }
    {
        let result = self.inner.write(buf);
        let is_fault = match &result {
            Ok(n) => *n == 0 && !buf.is_empty(),
            Err(_) => true,
        };
        self.note_call(is_fault);
        result
    }

    /// Passes the flush on. It counts as a call that doesn't fail, and never sets `failed`, even if it returns an error: a flush
    /// takes no bytes, and no run makes one.
    fn flush(&mut self) -> io::Result<()>
        ensures bytes { Keeps (W.contents self.old.inner) (W.contents self.new.inner) }
        ensures failed { self.new.failed ≡ self.old.failed }
        ensures noted { NotesCall self.old self.new false }
    {
        self.note_call(false);
        self.inner.flush()
    }

    /// Writes all bytes, or returns the first error. After an error some of the first bytes were taken, but not all, and no
    /// call was made after it.
    fn write_all(&mut self, buf: &[u8]) -> io::Result<()>
        ensures bytes { OnOk result (Appends (W.contents self.old.inner) (W.contents self.new.inner) buf.now) }
        ensures writes { WritesText W.contents self.old self.new buf.now (is_err result) }
    {
        let mut done = 0;
        while done < buf.len() {
            let n = self.write(&buf[done..])?;
            if n == 0 {
                return Err(io::Error::from(ErrorKind::WriteZero));
            }
            done += n;
        }
        Ok(())
    }
}
