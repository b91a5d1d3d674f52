// Lists the import text on standard input.
#![tactic(auto)]

use input::read_text;
use listings::listing;
use std::io::Write;

// The program that books has the same three lines over another function; one runner for both would take that function and its
// error's type as parameters, and be longer than both.
fn main(rt: HostRuntime) -> anyhow::Result<()> {
    let text = read_text(rt.alloc(), &mut rt.stdin())?;
    let out = listing(rt.alloc(), text)?;
    rt.stdout().write_all(out.as_bytes())?;
    Ok(())
}
