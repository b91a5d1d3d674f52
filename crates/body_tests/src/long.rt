// Long imports, run to their end. docs/CHECK.md tells how many instructions each takes.
use body::{Body, Import, Request};
use imports::check as check_text;
use std::alloc::Global;
use std::process::Abort;
use std::test::Fail;

// An import of so many transfers ends within its length, and books every line.
fn run(rt: &impl Abort, heap: Global, lines: usize) -> Result<(), Fail> {
    let mut text = b"H\tDKK\n".to_vec(heap)?;
    // Line by line, and not by `repeat`, so that the counts in docs/CHECK.md stay comparable.
    for _ in 0..lines {
        text.extend_from_slice(b"T\t3\t7\t12.34\n")?;
    }
    match check_text(text) {
        Ok(checked) => {
            let mut body = Import::new(checked);
            for _ in 0..body.length_of() {
                match body.request() {
                    Request::Read(_) => body.tell(5),
                    Request::Write(_, _) => body.took(),
                    Request::End => {}
                }
            }
            assert_eq!(rt; body.request(), Request::End);
            assert_eq!(rt; body.unposted(), 0);
            Ok(())
        }
        Err(_) => Err(Fail::new("the text is refused")),
    }
}

#[test]
fn lines_500(rt: HostRuntime) -> Result<(), Fail> {
    run(&rt, rt.alloc(), 500)
}

#[test]
fn lines_1000(rt: HostRuntime) -> Result<(), Fail> {
    run(&rt, rt.alloc(), 1000)
}

#[test]
fn lines_2000(rt: HostRuntime) -> Result<(), Fail> {
    run(&rt, rt.alloc(), 2000)
}
