// Makes an import that books a checked text.
ghost use Rattle.std.specs.Prelude.{◌≡◌, List};
ghost use Rattle.imports.specs.declared.posting.Posting.{Posting};
ghost use Rattle.imports.specs.Checks.{Tells};
ghost use Rattle.body.specs.MadeImports.{MadeImport};

use super::body::Body;
use super::importing::{Import, ImportStep};
use imports::{Checked, HEADER_BYTES};

impl Import {
    pub fn new(checked: Checked) -> Import
        ensures { (ps : List Posting) → Tells checked ps → MadeImport ps result }
    {
        let mut import = Import {
            checked,
            taken: 0,
            at: HEADER_BYTES,
            step: ImportStep::Done,
            unposted: 0,
        };
        import.restart();
        import
    }

    // How many lines were only counted, since a given amount or a new one was beyond the limit.
    pub fn unposted(&self) -> u32
        ensures { result ≡ self.now.unposted }
    {
        self.unposted
    }
}
