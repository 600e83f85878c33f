//! Which calls a `Watch` makes to what it watches: a read, a write or a flush through it is one, whatever comes of it.
ghost use Rattle.std.specs.Prelude.{◌≤◌, IfOk};

use crate::Outcome;
use crate::runs::{FAULTS, NEVER};
use names::{Fault, Watch};
use std::alloc::Global;
use std::io::{self, Read, Write};

// A call, with how many bytes it is handed.
#[derive(Clone, Copy, PartialEq)]
enum Call {
    Read(usize),
    Write(usize),
    WriteAll(usize),
    Flush,
}

// The first calls that were made, in their order.
type Made = [Option<Call>; 3];

// A reader at its end and a writer that takes at most so many bytes, which notes the first calls. The call of a number fails.
#[derive(Drop)]
struct Noting {
    made: Made,
    count: usize,
    at: u64,
    fault: Fault,
    most: usize,
}

impl Noting {
    // Notes a call, and returns so many bytes for it.
    fn note(&mut self, call: Call, bytes: usize) -> io::Result<usize>
        ensures { IfOk result (λ moved. moved ≤ bytes) }
    {
        let number = self.count;
        self.count = number.saturating_add(1);
        if let Some(slot) = self.made.get_mut(number) {
            *slot = Some(call);
        }
        match self.fault {
            _ if number as u64 != self.at => Ok(bytes.min(self.most)),
            Fault::Answers(kind) => Err(io::Error::from(kind)),
            Fault::MovesNothing => Ok(0),
        }
    }
}

impl Read for Noting {
    fn read(&mut self, buf: &mut [u8]) -> io::Result<usize> {
        self.note(Call::Read(buf.len()), 0)
    }
}

impl Write for Noting {
    fn write(&mut self, buf: &[u8]) -> io::Result<usize> {
        self.note(Call::Write(buf.len()), buf.len())
    }

    fn flush(&mut self) -> io::Result<()> {
        self.note(Call::Flush, 0).map(|_none| ())
    }
}

// The most bytes that a call is handed.
const MOST: usize = 70_000;

// The calls that these through a `Watch` make, of `MOST` bytes at most, if a write takes at most `most`, and call `at` fails.
fn made_by(calls: &[Call], most: usize, at: u64, fault: Fault) -> Made {
    let mut bytes = [b'a'; MOST];
    let mut noting = Noting {
        made: [None; 3],
        count: 0,
        at,
        fault,
        most,
    };
    let mut watch = Watch::new(&mut noting);
    for call in calls {
        match *call {
            Call::Read(len) => drop(watch.read(&mut bytes[..len.min(MOST)])),
            Call::Write(len) => drop(watch.write(&bytes[..len.min(MOST)])),
            Call::WriteAll(len) => drop(watch.write_all(&bytes[..len.min(MOST)])),
            Call::Flush => drop(watch.flush()),
        }
    }
    noting.made
}

pub(crate) fn a_call_is_one_call(_: Global) -> Outcome {
    let mut is_right = true;
    for fault in &FAULTS {
        for at in [0, NEVER] {
            for &len in &[0, 1, 64, 65, 5_000, 8_192, 65_536, MOST] {
                for call in [Call::Read(len), Call::Write(len), Call::Flush] {
                    is_right &= made_by(&[call], usize::MAX, at, *fault)
                        == [Some(call), None, None];
                }
            }
        }
    }
    Ok(is_right)
}

// The second call, which is of few bytes or of many.
const SECONDS: [Call; 5] = [
    Call::Read(2),
    Call::Read(5_000),
    Call::Write(2),
    Call::Write(5_000),
    Call::Flush,
];

pub(crate) fn a_call_after_a_failed_one_is_made(_: Global) -> Outcome {
    let mut is_right = true;
    for fault in &FAULTS {
        for first in [Call::Read(3), Call::Write(3)] {
            for second in SECONDS {
                let made = made_by(&[first, second], usize::MAX, 0, *fault);
                is_right &= made == [Some(first), Some(second), None];
            }
        }
    }
    Ok(is_right)
}

pub(crate) fn a_whole_write_ends_at_a_fault(_: Global) -> Outcome {
    // How many bytes, how many of them a write takes at most, which write fails, and the lengths of the writes.
    let rows = &[
        (0, usize::MAX, 0, [None, None]),
        (1, usize::MAX, 0, [Some(1), None]),
        (64, usize::MAX, 0, [Some(64), None]),
        (65, usize::MAX, 0, [Some(65), None]),
        (5_000, usize::MAX, 0, [Some(5_000), None]),
        (5_000, usize::MAX, NEVER, [Some(5_000), None]),
        (64, 64, 1, [Some(64), None]),
        (65, 64, 1, [Some(65), Some(1)]),
        (65, 64, NEVER, [Some(65), Some(1)]),
        (5_000, 64, 1, [Some(5_000), Some(4_936)]),
        (8_192, 5_000, NEVER, [Some(8_192), Some(3_192)]),
        (65_536, usize::MAX, 0, [Some(65_536), None]),
        (MOST, usize::MAX, NEVER, [Some(MOST), None]),
        (MOST, 65_536, 1, [Some(MOST), Some(4_464)]),
    ];
    let mut is_right = true;
    for fault in &FAULTS {
        for &(len, most, at, [first, second]) in rows {
            let wanted = [first.map(Call::Write), second.map(Call::Write), None];
            is_right &= made_by(&[Call::WriteAll(len)], most, at, *fault) == wanted;
        }
    }
    Ok(is_right)
}
