//! Lists of ends of texts that come and go a few bytes a call. Each is worked out by hand.
use crate::limited::Limited;
use byte_streams::{FromRead, ToWrite};
use report::{EndsOptions, run_ends};
use std::alloc::Global;

// Three states, one behind the other: two are kept at once.
const ONE: &[u8] = b"RISCV T
{ 0:x5=1; 0:x6=x; }
 P0          ;
 sw x5,0(x6) ;
 lw x7,0(x6) ;
~exists (x=1 /\\ 0:x7=1)
";

const ONE_END: &[u8] = b"test T
threads 1
states 3
ends 1
* x=1 0:x7=1
condition ~exists
held 1
observation T Always 1 0
";

const ONE_ORDERED: &[u8] = b"test T
threads 1
states 3
ends 1
* x=1 0:x7=1   P0:1 P0:2
condition ~exists
held 1
observation T Always 1 0
";

const ONE_OBJECT: &[u8] =
    b"{\"version\":1,\"command\":\"ends\",\"test\":\"T\",\"threads\":1,\"states\":3,\
\"ends\":[{\"holds\":true,\"values\":{\"x\":1,\"0:x7\":1}}],\"condition\":\"~exists\",\"held\":1,\
\"observation\":\"Always\"}
";

// The opening, two states with one store done and two with both: four are kept at once.
const TWO: &[u8] = b"RISCV 2+W
{ 0:x5=10; 0:x6=x; 1:x5=9; 1:x6=x; }
 P0          | P1          ;
 sw x5,0(x6) | sw x5,0(x6) ;
forall x=10
";

const TWO_ENDS: &[u8] = b"test 2+W
threads 2
states 5
ends 2
  x=9
* x=10
condition forall
held 1
observation 2+W Sometimes 1 1
";

const TWO_ORDERED: &[u8] = b"test 2+W
threads 2
states 5
ends 2
  x=9   P0:1 P1:1
* x=10   P1:1 P0:1
condition forall
held 1
observation 2+W Sometimes 1 1
";

const TWO_OBJECT: &[u8] =
    b"{\"version\":1,\"command\":\"ends\",\"test\":\"2+W\",\"threads\":2,\"states\":5,\
\"ends\":[{\"holds\":false,\"values\":{\"x\":9},\"order\":[\"P0:1\",\"P1:1\"]},\
{\"holds\":true,\"values\":{\"x\":10},\"order\":[\"P1:1\",\"P0:1\"]}],\
\"condition\":\"forall\",\"held\":1,\"observation\":\"Sometimes\"}
";

// The same stores, and a condition that holds in no end.
const NONE: &[u8] = b"RISCV 2+W
{ 0:x5=10; 0:x6=x; 1:x5=9; 1:x6=x; }
 P0          | P1          ;
 sw x5,0(x6) | sw x5,0(x6) ;
exists x=0
";

const NONE_HELD: &[u8] = b"test 2+W
threads 2
states 5
ends 2
  x=9
  x=10
condition exists
held 0
observation 2+W Never 0 2
";

// A text, how many states may be kept, whether orders are asked for, and JSON; the number of the error or 0, and what
// is written.
type Case = (&'static [u8], u64, bool, bool, u8, &'static [u8]);

const CASES: &[Case] = &[
    (ONE, 1, false, false, 7, b""),
    (ONE, 2, false, false, 0, ONE_END),
    (ONE, 2, true, false, 0, ONE_ORDERED),
    (ONE, 2, false, true, 0, ONE_OBJECT),
    (TWO, 3, true, true, 7, b""),
    (TWO, 4, false, false, 0, TWO_ENDS),
    (TWO, 4, true, false, 0, TWO_ORDERED),
    (TWO, 4, true, true, 0, TWO_OBJECT),
    (NONE, 18446744073709551615, false, false, 0, NONE_HELD),
    (b"RISCV\n", 4, true, false, 4, b""),
];

fn is_listed(alloc: Global, step: usize, case: &Case) -> bool {
    let (inner, most_states, orders, json, wanted, text) = *case;
    let calls = 1000;
    let mut out = Vec::new(alloc);
    let mut source = FromRead::new(Limited { inner, step, calls });
    let mut sink = ToWrite::new(Limited {
        inner: &mut out,
        step,
        calls,
    });
    let options = EndsOptions {
        most_states,
        orders,
        json,
    };
    let number = match run_ends(alloc, &mut source, &mut sink, &options) {
        Ok(_) => 0,
        Err(error) => error.number(),
    };
    number == wanted && out.as_slice() == text
}

#[test]
fn ends_are_listed(rt: HostRuntime) {
    for step in [1, 5, 4096] {
        for case in CASES {
            assert!(rt; is_listed(rt.alloc(), step, case));
        }
    }
}
