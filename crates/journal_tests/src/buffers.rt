// What the tables share: a line is written into a buffer of marker bytes, and the whole buffer is compared.
// Handle and heap go side by side: a helper may not take the runtime, and a bound for both would make its vectors generic.
use journal::{LineRefusal, Record, line};
use std::alloc::{AllocError, Global};
use std::process::Abort;
use std::test::Fail;

// A byte that no line has.
const MARKER: u8 = 170;

// A buffer of so many marker bytes.
pub(crate) fn marked(heap: Global, size: usize) -> Result<Vec<u8>, AllocError> {
    vec![in heap; MARKER; size]
}

// The line of record `i` is this text, in a buffer with so many bytes before it and so many behind it.
pub(crate) fn writes(
    rt: &impl Abort,
    heap: Global,
    journal: &[Record],
    i: usize,
    text: &str,
    before: usize,
    behind: usize,
) -> Result<(), Fail> {
    let mut expected = marked(heap, before)?;
    expected.extend_from_slice(text.as_bytes())?;
    let end = expected.len();
    expected.extend_from_slice(marked(heap, behind)?.as_slice())?;
    let mut buffer = marked(heap, expected.len())?;
    assert_eq!(rt;
        line(journal, i, buffer.as_mut_slice(), before),
        Ok(end),
        "{text}"
    );
    assert!(rt;
        buffer.as_slice() == expected.as_slice(),
        "the buffer: {text}"
    );
    Ok(())
}

// The line of each record is the text beside it, and the record prints as its line.
pub(crate) fn writes_each(
    rt: &impl Abort,
    heap: Global,
    table: &[(Record, &str)],
) -> Result<(), Fail> {
    for (record, text) in table.iter().copied() {
        writes(rt, heap, &[record], 0, text, 3, 5)?;
        assert_eq!(rt; record.to_string(heap)?.as_str(), text);
    }
    Ok(())
}

// The line of record `i` is refused at this place of a buffer of this size, and the buffer is untouched.
pub(crate) fn refuses(
    rt: &impl Abort,
    heap: Global,
    journal: &[Record],
    i: usize,
    size: usize,
    place: usize,
    refusal: LineRefusal,
) -> Result<(), Fail> {
    let untouched = marked(heap, size)?;
    let mut buffer = marked(heap, size)?;
    assert_eq!(rt;
        line(journal, i, buffer.as_mut_slice(), place),
        Err(refusal)
    );
    assert!(rt; buffer.as_slice() == untouched.as_slice(), "the buffer");
    Ok(())
}
