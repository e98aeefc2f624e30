//! The names of errors, and their numbers, where the program reports neither.
use litmus_reader::{Kind as LitmusKind, LitmusError};
use report::RunError;
use std::alloc::Global;
use std::test::Fail;
use trace_reader::{Kind, TraceError};

// Every kind of fault of a trace, and what is said of it. The program tells numbers and names instead.
const KINDS: &[(Kind, &str)] = &[
    (Kind::Read, "reading failed"),
    (Kind::NoMemory, "allocation failed"),
    (Kind::TooLong, "a line that is too long"),
    (Kind::BadCore, "a bad core"),
    (Kind::BadOperation, "a bad operation"),
    (Kind::BadAddress, "a bad address"),
    (Kind::BadValue, "a bad value"),
    (Kind::ExtraWords, "words that are too many"),
    (Kind::BadForm, "a bad form"),
    (Kind::DoubleWord, "a word that has its value already"),
];

fn is_called(alloc: Global, line: usize, kind: Kind, told: &str) -> Result<bool, Fail> {
    let error = TraceError { line, kind };
    let text = format!(in alloc; "{error}")?;
    let wanted = format!(in alloc; "line {line}: {told}")?;
    Ok(text == wanted)
}

#[test]
fn kinds_of_faults(rt: HostRuntime) -> Result<(), Fail> {
    for (kind, told) in KINDS {
        for line in [0, 4_294_967_299] {
            assert!(rt; is_called(rt.alloc(), line, *kind, told)?, "{line}: {told}");
        }
    }
    Ok(())
}

// Every kind of fault of a litmus test, and what is said of it.
const LITMUS_KINDS: &[(LitmusKind, &str)] = &[
    (LitmusKind::NoMemory, "allocation failed"),
    (LitmusKind::TooLarge, "a limit is passed"),
    (LitmusKind::BadByte, "a byte that is not allowed"),
    (LitmusKind::BadHeader, "a bad header line"),
    (LitmusKind::BadInitial, "a bad item of the initial block"),
    (LitmusKind::DoubleInitial, "a name that is set twice"),
    (
        LitmusKind::BadTable,
        "a bad header row or a row of another shape",
    ),
    (LitmusKind::BadInstruction, "a cell that is no instruction"),
    (LitmusKind::ValueRange, "a number that is too large"),
    (LitmusKind::MixedWidth, "an instruction of a second width"),
    (
        LitmusKind::AddressAsValue,
        "an address register that is used as a value",
    ),
    (
        LitmusKind::ValueAsAddress,
        "a register in parentheses that is no address register",
    ),
    (LitmusKind::BadCondition, "a bad condition"),
    (LitmusKind::CutShort, "the text ends too early"),
];

fn is_litmus_fault(alloc: Global, kind: LitmusKind, told: &str) -> Result<bool, Fail> {
    let error = LitmusError {
        line: 4_294_967_299,
        kind,
    };
    let text = format!(in alloc; "{error}")?;
    let wanted = format!(in alloc; "line 4294967299: {told}")?;
    Ok(text == wanted)
}

#[test]
fn kinds_of_faults_of_litmus_tests(rt: HostRuntime) -> Result<(), Fail> {
    for (kind, told) in LITMUS_KINDS {
        assert!(rt; is_litmus_fault(rt.alloc(), *kind, told)?, "{told}");
    }
    Ok(())
}

// Errors of a run, and what is said of them.
const ERRORS: &[(RunError, &str)] = &[
    (RunError::Read, "reading failed"),
    (RunError::Write, "writing failed"),
    (RunError::NoMemory, "no memory"),
    (RunError::BadConfig, "bad configuration"),
    (
        RunError::TooManyStates(7, 9),
        "more than 7 states; 9 are enough to go on",
    ),
    (
        RunError::Litmus(LitmusError {
            line: 4_294_967_299,
            kind: LitmusKind::BadHeader,
        }),
        "line 4294967299: BadHeader",
    ),
    (
        RunError::Trace(TraceError {
            line: 4_294_967_299,
            kind: Kind::BadCore,
        }),
        "line 4294967299: BadCore",
    ),
    (
        RunError::Opening(TraceError {
            line: 4_294_967_299,
            kind: Kind::DoubleWord,
        }),
        "opening: line 4294967299: DoubleWord",
    ),
];

fn is_said(alloc: Global, error: &RunError, told: &str) -> Result<bool, Fail> {
    let text = format!(in alloc; "{error}")?;
    Ok(text.as_str() == told)
}

#[test]
fn errors_of_a_run(rt: HostRuntime) -> Result<(), Fail> {
    for (error, told) in ERRORS {
        assert!(rt; is_said(rt.alloc(), error, told)?, "{told}");
    }
    Ok(())
}

#[test]
fn errors_have_these_numbers(rt: HostRuntime) {
    let fault = TraceError {
        line: 3,
        kind: Kind::BadCore,
    };
    let cut = LitmusError {
        line: 1,
        kind: LitmusKind::BadHeader,
    };
    let numbers = [
        RunError::Read.number(),
        RunError::Write.number(),
        RunError::NoMemory.number(),
        RunError::Litmus(cut).number(),
        RunError::Trace(fault).number(),
        RunError::BadConfig.number(),
        RunError::TooManyStates(7, 9).number(),
        RunError::Opening(fault).number(),
    ];
    assert_eq!(rt; numbers, [1, 2, 3, 4, 5, 6, 7, 12]);
}

// No report names these kinds.
#[test]
fn kinds_without_a_line_have_these_numbers(rt: HostRuntime) {
    let litmus = LitmusKind::NoMemory;
    assert_eq!(rt;
        [
            Kind::Read.number(),
            Kind::NoMemory.number(),
            litmus.number()
        ],
        [1, 2, 1]
    );
    assert_eq!(rt;
        [Kind::Read.name(), Kind::NoMemory.name(), litmus.name()],
        ["Read", "NoMemory", "NoMemory"]
    );
}
