//! All bytes that come and go, and what comes before a failure.
use crate::limited::Limited;
use byte_streams::{DeviceError, FromRead, ReadError, ToWrite, read_all, write_all};
use std::alloc::Global;
use std::test::Fail;

// How many bytes are to be read at most of ten that come one a call, or seven, and how many calls succeed; and how many
// are read. No call is made after the first byte too many.
const READ: &[(usize, usize, u32, Result<usize, ReadError>)] = &[
    (11, 1, 11, Ok(10)),
    (10, 1, 11, Ok(10)),
    (9, 1, 10, Err(ReadError::TooMany)),
    (1, 1, 2, Err(ReadError::TooMany)),
    (0, 1, 1, Err(ReadError::TooMany)),
    (4, 1, 4, Err(ReadError::Device)),
    (11, 7, 3, Ok(10)),
    (11, 7, 2, Err(ReadError::Device)),
];

// Whether so many bytes are read, and all of them if it is no error.
fn is_read(
    alloc: Global,
    bytes: &[u8],
    case: &(usize, usize, u32, Result<usize, ReadError>),
) -> bool {
    let (most, step, calls, wanted) = *case;
    let inner = bytes;
    let mut source = FromRead::new(Limited { inner, step, calls });
    match read_all(alloc, &mut source, most) {
        Ok(all) => wanted == Ok(all.len()) && all.as_slice() == bytes,
        Err(error) => wanted == Err(error),
    }
}

#[test]
fn bytes_come(rt: HostRuntime) -> Result<(), Fail> {
    for case in READ {
        assert!(rt; is_read(rt.alloc(), b"abcdefghij", case), "{case:?}");
    }
    // Many blocks come, each in many calls.
    let mut many = Vec::new(rt.alloc());
    for i in 0..70_000u32 {
        many.push((i % 251) as u8)?;
    }
    assert!(rt; is_read(rt.alloc(), &many, &(70_000, 7, 20_000, Ok(70_000))));
    Ok(())
}

// How many bytes a call takes, and how many calls succeed; how many of eight bytes are written then, and whether all
// are.
const WRITTEN: &[(usize, u32, usize, Result<(), DeviceError>)] = &[
    (3, 3, 8, Ok(())),
    (3, 2, 6, Err(DeviceError)),
    (0, 9, 0, Err(DeviceError)),
];

#[test]
fn bytes_go(rt: HostRuntime) {
    for (step, calls, count, wanted) in WRITTEN {
        let mut out = Vec::new(rt.alloc());
        let mut sink = ToWrite::new(Limited {
            inner: &mut out,
            step: *step,
            calls: *calls,
        });
        let answer = write_all(&mut sink, b"abcdefgh");
        assert!(rt;
            answer == *wanted && out.as_slice() == &b"abcdefgh"[..*count],
            "{count} bytes"
        );
    }
}
