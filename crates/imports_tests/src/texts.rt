// What the tables share: a text is checked, and its fault or its postings are compared.
// Handle and heap go side by side: a helper may not take the runtime, and a bound for both would make its vectors generic.
use imports::{Totals, check};
use std::alloc::Global;
use std::process::Abort;
use std::test::Fail;

// The text is refused with this line and this number.
pub(crate) fn refused(
    rt: &impl Abort,
    heap: Global,
    text: &[u8],
    line: u32,
    number: u32,
) -> Result<(), Fail> {
    refused_as(rt, heap, text, line, number, "the text")
}

// The same, and a failure tells the text by these words.
pub(crate) fn refused_as(
    rt: &impl Abort,
    heap: Global,
    text: &[u8],
    line: u32,
    number: u32,
    words: &str,
) -> Result<(), Fail> {
    match check(text.to_vec(heap)?) {
        Ok(_) => Err(Fail::new(format_args!("the text is admitted: {words}"))),
        Err(fault) => {
            assert_eq!(rt; (fault.line(), fault.number()), (line, number), "{words}");
            Ok(())
        }
    }
}

// The text is admitted, and its postings come to these totals.
pub(crate) fn admitted(
    rt: &impl Abort,
    heap: Global,
    text: &[u8],
    totals: Totals,
) -> Result<(), Fail> {
    match check(text.to_vec(heap)?) {
        Ok(import) => {
            assert_eq!(rt; import.count(), totals.count);
            assert_eq!(rt; import.reach(), totals.reach);
            assert_eq!(rt; import.length(), totals.length);
            Ok(())
        }
        Err(fault) => Err(Fail::new(format_args!("the text is refused: {fault}"))),
    }
}
