//! The texts of errors and of a reason that no font file brings about.
use aat_cuts::Unsettled;
use aat_layout::AatError;
use aat_layout::buffer::BufferError;
use aat_layout::font::TableError;
use std::alloc::Global;
use std::fmt::Display;
use std::process::Abort;
use std::test::Fail;

const BUFFER_ERRORS: [(BufferError, &str); 2] = [
    (BufferError::TooLong, "the line would be too long"),
    (BufferError::OutOfMemory, "out of memory"),
];

const TABLE_ERRORS: [(TableError, &str); 5] = [
    (
        TableError::NotRising(65536),
        "the element at place 65536 is not above the one before it",
    ),
    (TableError::FewClasses, "there are fewer than 4 classes"),
    (
        TableError::ClassOutOfRange(7),
        "the class of the rule at place 7 is not below the number of classes",
    ),
    (
        TableError::TooManySubtables,
        "there are more than 65535 subtables",
    ),
    (TableError::OutOfMemory, "out of memory"),
];

const LAYOUT_ERRORS: [(AatError, &str); 4] = [
    (
        AatError::AaltValue(65536),
        "the value 65536 is no alternate",
    ),
    (AatError::TooLong, "the line would be too long"),
    (AatError::OutOfMemory, "out of memory"),
    (AatError::BufferFailed, "the buffer had failed before"),
];

const UNSETTLED: [(Unsettled, &str); 1] = [(
    Unsettled::MissingEntry(0, 3),
    "state 0 has no entry for class 3",
)];

/// Asserts the text of each error.
fn assert_texts<E: Display + Drop + Copy>(
    rt: &impl Abort,
    alloc: Global,
    errors: &[(E, &str)],
) -> Result<(), Fail> {
    for (error, text) in errors {
        let error = *error;
        let shown = format!(in alloc; "{error}")?;
        assert!(rt; shown.as_str() == *text, "{text}");
    }
    Ok(())
}

#[test]
fn each_error_has_its_text(rt: HostRuntime) -> Result<(), Fail> {
    assert_texts(&rt, rt.alloc(), &BUFFER_ERRORS)?;
    assert_texts(&rt, rt.alloc(), &TABLE_ERRORS)?;
    assert_texts(&rt, rt.alloc(), &LAYOUT_ERRORS)?;
    assert_texts(&rt, rt.alloc(), &UNSETTLED)
}
