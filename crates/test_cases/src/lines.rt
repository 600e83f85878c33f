//! Lines of the program, whose names are kept in one vector and in two columns, and how much is read of a longer input.
use crate::Outcome;
use crate::runs::{FAULTS, STORES, run_kept};
use names::{FailAt, Watch};
use std::alloc::Global;

// Lines, the output, and the status.
type Row = (&'static [u8], &'static [u8], u8);

const ROWS: [Row; 11] = [
    // No input has no output.
    (b"", b"", 0),
    // A name is put, looked up, removed and looked up again.
    (
        b"put a 1\nget a\ndel a\nget a\n",
        b"new\n= 1\n= 1\nnone\n",
        0,
    ),
    // An empty line is counted, and a bad line ends the run.
    (b"put a 1\n\nput a\nall\n", b"new\nbad line 3\n", 2),
    // A quotation mark and a backslash are escaped in JSON.
    (
        b"put a \"\nput b \\\njson\n",
        b"new\nnew\n{\"a\":\"\\\"\",\"b\":\"\\\\\"}\n",
        0,
    ),
    // A line of JSON takes no word.
    (b"json x\n", b"bad line 1\n", 2),
    // A bad line in front of others ends the run at once.
    //
    // There are two spaces, a space in front and one at the end, a word too many, a carriage return, and a letter that is no
    // graphic byte.
    (b"put  a 1\nall\n", b"bad line 1\n", 2),
    (b" get a\nall\n", b"bad line 1\n", 2),
    (b"get a \nall\n", b"bad line 1\n", 2),
    (b"all x\nall\n", b"bad line 1\n", 2),
    (b"all\r\nall\n", b"bad line 1\n", 2),
    (b"put a \xc3\xa9\nall\n", b"bad line 1\n", 2),
];

// Whether lines have this output and status, wherever the names are kept.
fn are_answered(alloc: Global, (lines, output, wanted): (&[u8], &[u8], u8)) -> bool {
    let mut is_right = true;
    for kept in STORES {
        let mut out = Vec::new(alloc);
        let (mut reader, mut writer) = (Watch::new(lines), Watch::new(&mut out));
        let status = run_kept(alloc, kept, &mut reader, &mut writer);
        is_right &= status == wanted && out.as_slice() == output;
    }
    is_right
}

pub(crate) fn lines_are_answered(alloc: Global) -> Outcome {
    let mut is_right = true;
    for row in &ROWS {
        is_right &= are_answered(alloc, *row);
    }
    Ok(is_right)
}

pub(crate) fn the_longest_input_is_answered(alloc: Global) -> Outcome {
    let mut input = vec![in alloc; b'\n'; 1_048_577]?;
    // One byte more is too long.
    let too_long = are_answered(alloc, (input.as_slice(), b"input too long\n", 2));
    // The longest input, of empty lines, has no output.
    let _last = input.pop();
    Ok(too_long && are_answered(alloc, (input.as_slice(), b"", 0)))
}

pub(crate) fn one_byte_too_many_is_read(alloc: Global) -> Outcome {
    let input = vec![in alloc; b'\n'; 2_000_000]?;
    let mut is_right = true;
    for most in [1, 7, 4096, usize::MAX] {
        for kept in STORES {
            let (mut rest, mut out) = (input.as_slice(), Vec::new(alloc));
            let mut source = FailAt::new(&mut rest, u64::MAX, FAULTS[0]);
            source.most = most;
            let (mut reader, mut writer) = (Watch::new(&mut source), Watch::new(&mut out));
            let status = run_kept(alloc, kept, &mut reader, &mut writer);
            is_right &= (status, rest.len()) == (2, 2_000_000 - 1_048_577)
                && out.as_slice() == b"input too long\n".as_slice();
        }
    }
    Ok(is_right)
}
