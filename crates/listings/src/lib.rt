// Lists an import text: a line for each posting and one for what they come to, or one line that names the fault.
#![tactic(auto)]

ghost use Rattle.std.specs.Prelude.{◌≡◌, List, ◌++◌, IfOk, OnOk, string_bytes};
ghost use Rattle.imports.specs.declared.posting.Posting.{Posting};
ghost use Rattle.imports.specs.Checks.{Tells};
ghost use Rattle.listings.specs.Listings.{Lists, listed, posting_line};

use imports::{Checked, Posting, check};
use std::alloc::Global;
use std::fmt;

pub fn listing(heap: Global, text: Vec<u8>) -> Result<String, fmt::Error>
    ensures { IfOk result (λ out. Lists text.items (string_bytes out)) }
{
    match check(text) {
        Ok(import) => list(heap, &import),
        Err(fault) => Ok(format!(in heap; "X\t{fault}\n")?),
    }
}

// The listing of an admitted import.
fn list(heap: Global, import: &Checked) -> Result<String, fmt::Error>
    ensures { IfOk result (λ out. (ps : List Posting) → Tells import.now ps → string_bytes out ≡ listed ps) }
{
    let mut out = String::new(heap);
    for posting in import.postings() {
        list_posting(&mut out, posting)?;
    }
    write!(
        out,
        "L\t{}\t{}\t{}\n",
        import.count(),
        import.reach(),
        import.length()
    )?;
    Ok(out)
}

// The line of a posting.
fn list_posting(out: &mut String, posting: Posting) -> fmt::Result
    ensures { OnOk result (string_bytes out.new ≡ string_bytes out.old ++ posting_line posting) }
{
    write!(out, "{posting}\n")?;
    Ok(())
}
