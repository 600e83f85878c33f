//! Runs with names kept in one vector or in two columns, in which a read or a write fails.
use litemap_columns::ColumnStore;
use names::{FailAt, Fault, Watch, run, run_with};
use std::alloc::Global;
use std::io::{ErrorKind, Read, Write};

/// Where a run keeps its names.
#[derive(Clone, Copy)]
pub enum Kept {
    /// In a vector of pairs.
    InOneVector,
    /// In a vector of keys and one of values.
    InTwoColumns,
}

/// Each place where a run keeps its names.
pub const STORES: [Kept; 2] = [Kept::InOneVector, Kept::InTwoColumns];

/// A number of calls that no test makes.
pub const NEVER: u64 = 1_000_000;

macro_rules! faults {
    ($($kind:ident)+) => { [$(Fault::Answers(ErrorKind::$kind),)+ Fault::MovesNothing] };
}

/// An error of each kind. The last one is of a write alone: a read that moves nothing finds the end.
pub const FAULTS: [Fault; 43] = faults! {
    Interrupted BrokenPipe WouldBlock WriteZero Other NotFound PermissionDenied ConnectionRefused
    ConnectionReset HostUnreachable NetworkUnreachable ConnectionAborted NotConnected AddrInUse
    AddrNotAvailable NetworkDown AlreadyExists NotADirectory IsADirectory DirectoryNotEmpty
    ReadOnlyFilesystem FilesystemLoop StaleNetworkFileHandle InvalidInput InvalidData TimedOut
    StorageFull NotSeekable QuotaExceeded FileTooLarge ResourceBusy ExecutableFileBusy Deadlock
    CrossesDevices TooManyLinks InvalidFilename ArgumentListTooLong Unsupported UnexpectedEof
    OutOfMemory InProgress Uncategorized
};

/// Runs the program with its names kept there, and returns its status.
pub fn run_kept<R: Read, W: Write>(
    alloc: Global,
    kept: Kept,
    reader: &mut Watch<R>,
    writer: &mut Watch<W>,
) -> u8 {
    match kept {
        Kept::InOneVector => run(alloc, reader, writer),
        Kept::InTwoColumns => {
            run_with::<ColumnStore<String, String>, _, R, W>(alloc, reader, writer)
        }
    }
}

/// How a run ended: its status, whether a read and whether a write failed, and how many reads and writes were made.
pub type Ran = (u8, [bool; 2], [u64; 2]);

/// Runs the program on the input, and returns how it ended and what it wrote. The read and the write of those numbers fail, and
/// the others move at most so many bytes.
pub fn run_with_faults(
    alloc: Global,
    kept: Kept,
    input: &[u8],
    fault: Fault,
    (read_at, most_read): (u64, usize),
    (write_at, most_written): (u64, usize),
) -> (Ran, Vec<u8>) {
    let mut out = Vec::new(alloc);
    let mut source = FailAt::new(input, read_at, fault);
    let mut sink = FailAt::new(&mut out, write_at, fault);
    source.most = most_read;
    sink.most = most_written;
    let (mut reader, mut writer) = (Watch::new(&mut source), Watch::new(&mut sink));
    let status = run_kept(alloc, kept, &mut reader, &mut writer);
    let failed = [reader.failed, writer.failed];
    ((status, failed, [source.calls, sink.calls]), out)
}
