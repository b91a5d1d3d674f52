// Books the import text on standard input, and prints the journal.
#![tactic(auto)]

use input::read_text;
use posts::post;
use std::io::Write;

// The program that lists has the same three lines over another function; one runner for both would take that function and its
// error's type as parameters, and be longer than both.
fn main(rt: HostRuntime) -> anyhow::Result<()> {
    let text = read_text(rt.alloc(), &mut rt.stdin())?;
    let out = post(rt.alloc(), text)?;
    rt.stdout().write_all(out.as_bytes())?;
    Ok(())
}
