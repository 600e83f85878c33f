//! Runs in which each read and each write fails in turn, by an error of each kind: after it no further call is made.
use crate::Outcome;
use crate::runs::{FAULTS, Kept, NEVER, STORES, run_kept, run_with_faults};
use names::{Fault, Watch};
use std::alloc::Global;

// Lines, and what becomes of them.
#[derive(Clone, Copy)]
struct Case<'a> {
    lines: &'a [u8],
    // How many bytes a read gives at most, and how many reads there are, of which the last one finds the end.
    most: usize,
    reads: u64,
    // What is written for the lines, and how many bytes of it each write takes.
    answers: &'a [u8],
    writes: &'a [usize],
}

const CASES: [Case<'static>; 3] = [
    // Names are put, one of them twice, and listed.
    Case {
        lines: b"put b 2\nput a 1\nput b 3\nfind c\nall\n",
        most: usize::MAX,
        reads: 2,
        answers: b"new\nnew\nold 2\nerr 2\na 1\nb 3\n",
        writes: &[4, 4, 6, 6, 8],
    },
    // Lines of each kind, of which one is empty and the last has no line feed.
    Case {
        lines: b"put b 2\nput a 1\nput b 3\nget b\nget c\nfind c\ndel a\ndel a\nall\njson\n\nput c \"\njson",
        most: 7,
        reads: 12,
        answers: b"new\nnew\nold 2\n= 3\nnone\nerr 2\n= 1\nnone\nb 3\n{\"b\":\"3\"}\nnew\n{\"b\":\"3\",\"c\":\"\\\"\"}\n",
        writes: &[4, 4, 6, 4, 5, 6, 4, 5, 4, 10, 4, 19],
    },
    // Names are put, written as JSON and removed.
    Case {
        lines: b"del a\njson\nput b 2\nput a 1\njson\ndel b\nget b\n",
        most: 7,
        reads: 8,
        answers: b"none\n[]\nnew\nnew\n{\"a\":\"1\",\"b\":\"2\"}\n= 2\nnone\n",
        writes: &[5, 3, 4, 4, 18, 4, 5],
    },
];

// Whether each run ends as it has to, if each read fails in turn, and then none.
fn reads_are_right(alloc: Global, kept: Kept, case: Case<'_>, fault: Fault) -> bool {
    let mut is_right = true;
    for at in 0..=case.reads {
        let (read, write) = ((at, case.most), (NEVER, usize::MAX));
        let (ran, out) = run_with_faults(alloc, kept, case.lines, fault, read, write);
        let (wanted, text) = if at < case.reads {
            ((4, [true, false], [at + 1, 1]), b"read fault\n".as_slice())
        } else {
            let calls = [case.reads, case.writes.len() as u64];
            ((0, [false; 2], calls), case.answers)
        };
        is_right &= ran == wanted && out.as_slice() == text;
    }
    is_right
}

// The same of each write, which takes `most` bytes at most: a whole reply, or one. What is written is all that those before took.
fn writes_are_right(alloc: Global, kept: Kept, case: Case<'_>, fault: Fault, most: usize) -> bool {
    let whole = case.writes.len();
    let all = if most > 1 { whole } else { case.answers.len() };
    let (mut is_right, mut taken) = (true, 0usize);
    for at in 0..=all {
        let (read, write) = ((NEVER, case.most), (at as u64, most));
        let (ran, out) = run_with_faults(alloc, kept, case.lines, fault, read, write);
        let wanted = if at < all {
            (4, [false, true], [case.reads, write.0.wrapping_add(1)])
        } else {
            (0, [false; 2], [case.reads, write.0])
        };
        is_right &= ran == wanted && case.answers.get(..taken) == Some(out.as_slice());
        let more = case.writes.get(at).copied().unwrap_or(0);
        taken = taken.wrapping_add(more.min(most).max(1));
    }
    is_right
}

// An error at each read of a run, the names kept in one vector and in two columns.
pub(crate) fn each_read_fails(alloc: Global) -> Outcome {
    let input = vec![in alloc; b'\n'; 10_000]?;
    let long = Case {
        lines: &input,
        most: usize::MAX,
        reads: 4,
        answers: b"",
        writes: &[],
    };
    let mut is_right = true;
    for kept in STORES {
        for fault in &FAULTS[..5] {
            is_right &= reads_are_right(alloc, kept, long, *fault);
        }
        for fault in &FAULTS[..42] {
            for case in &CASES {
                is_right &= reads_are_right(alloc, kept, *case, *fault);
            }
        }
    }
    Ok(is_right)
}

// An error at each write of a run, the names kept in one vector and in two columns.
pub(crate) fn each_write_fails(alloc: Global) -> Outcome {
    let mut is_right = true;
    for kept in STORES {
        for fault in &FAULTS {
            for case in &CASES {
                is_right &= writes_are_right(alloc, kept, *case, *fault, usize::MAX)
                    && writes_are_right(alloc, kept, *case, *fault, 1);
            }
        }
    }
    Ok(is_right)
}

pub(crate) fn last_lines_fail(alloc: Global) -> Outcome {
    let long = vec![in alloc; b'\n'; 1_048_577]?;
    // The input, the read that fails, and the number of reads.
    let rows = [
        (b"bad".as_slice(), NEVER, 2),
        (long.as_slice(), NEVER, 257),
        (b"all\n".as_slice(), 0, 1),
    ];
    let mut is_right = true;
    for kept in STORES {
        for fault in &FAULTS[..5] {
            for &(input, at, reads) in &rows {
                let (read, write) = ((at, usize::MAX), (0, usize::MAX));
                let (ran, out) = run_with_faults(alloc, kept, input, *fault, read, write);
                is_right &= ran == (4, [at == 0, true], [reads, 1]) && out.is_empty();
            }
        }
    }
    Ok(is_right)
}

pub(crate) fn a_writer_takes_nothing(alloc: Global) -> Outcome {
    let mut is_right = true;
    for kept in STORES {
        let mut full = [0u8; 2];
        let mut reader = Watch::new(CASES[0].lines);
        let mut writer = Watch::new(full.as_mut_slice());
        let status = run_kept(alloc, kept, &mut reader, &mut writer);
        is_right &= status == 4 && writer.failed && !reader.failed && full == *b"ne";
    }
    Ok(is_right)
}
