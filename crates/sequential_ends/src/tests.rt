//! Store buffering: three ends, thirteen points in layers of 1, 2, 3, 4 and 3, of which seven are kept at once. And
//! seven swaps of one word: each order of the threads is an end, and k turns lead to 7!/(7 - k)! points, in layers of
//! 1, 7, 42, 210, 840, 2,520, 5,040 and 5,040.
use crate::{EndsError, MOST_STATES, list_ends};
use litmus_reader::read;
use std::alloc::Global;
use std::test::Fail;

const BUFFERING: &str = "RISCV SB\n\
    {0:x6=x; 0:x8=y; 1:x6=y; 1:x8=x; }\n\
    P0 | P1 ;\n\
    ori x5,x0,1 | ori x5,x0,1 ;\n\
    sw x5,0(x6) | sw x5,0(x6) ;\n\
    lw x7,0(x8) | lw x7,0(x8) ;\n\
    exists (0:x7=0 /\\ 1:x7=0)\n";

const SWAPS: &str = "RISCV SWAPS\n\
    {0:x6=x; 0:x5=1; 1:x6=x; 1:x5=2; 2:x6=x; 2:x5=3; 3:x6=x; 3:x5=4; 4:x6=x; 4:x5=5; 5:x6=x; 5:x5=6; \
    6:x6=x; 6:x5=7; }\n\
    P0 | P1 | P2 | P3 | P4 | P5 | P6 ;\n\
    amoswap.w x7,x5,(x6) | amoswap.w x7,x5,(x6) | amoswap.w x7,x5,(x6) | amoswap.w x7,x5,(x6) | \
    amoswap.w x7,x5,(x6) | amoswap.w x7,x5,(x6) | amoswap.w x7,x5,(x6) ;\n\
    exists (0:x7=0 /\\ 1:x7=1 /\\ 2:x7=2 /\\ 3:x7=3 /\\ 4:x7=4 /\\ 5:x7=5 /\\ 6:x7=6)\n";

// How many states of a test may be kept, and how many ends and states there are then. If there are too many, no end,
// and how many are enough to go on.
const COUNTS: &[(&str, usize, usize, u64)] = &[
    (BUFFERING, 0, 0, 3),
    (BUFFERING, 6, 0, 9),
    (BUFFERING, 7, 3, 13),
    (BUFFERING, MOST_STATES, 3, 13),
    (SWAPS, 10_079, 0, 40_320),
    (SWAPS, 10_080, 5_040, 13_700),
];

// Whether so many ends and states are told.
fn ends_and_states_match(alloc: Global, text: &str, most: usize, ends: usize, states: u64) -> bool {
    let Ok(test) = read(alloc, text.as_bytes()) else {
        return false;
    };
    match list_ends(alloc, &test, most, false) {
        Ok(every) => every.len() == ends && every.states() == states,
        Err(EndsError::TooMany(enough)) => ends == 0 && enough as u64 == states,
        Err(EndsError::NoMemory) => false,
    }
}

#[test]
fn ends_and_states_are_counted(rt: HostRuntime) -> Result<(), Fail> {
    for (text, most, ends, states) in COUNTS {
        assert!(rt;
            ends_and_states_match(rt.alloc(), text, *most, *ends, *states),
            "{most}"
        );
    }
    Ok(())
}
