// The postings of an admitted import, in order, read from its text one line at a time.
ghost use Rattle.std.specs.Prelude.{◌≡◌, ◌-◌, List, length};
ghost use Rattle.imports.specs.declared.posting.Posting.{Posting};
ghost use Rattle.imports.specs.Checks.{Tells};
ghost use Rattle.imports.specs.Cursors.{Ahead, Takes};
ghost use Rattle.imports.specs.Texts.{reach, total_length};
ghost use Rattle.std.specs.Iterator.{at_most};

use super::checked::Checked;
use super::cursor::Postings;
use super::posting::Posting;
use super::read::{HEADER_BYTES, read_line};
use money::Code;

impl Checked {
    pub fn code(&self) -> Code
        ensures { result ≡ self.now.code }
    {
        self.code
    }

    // How many postings there are.
    pub fn count(&self) -> u32
        ensures value { result ≡ self.now.totals.count }
        ensures told { (ps : List Posting) → Tells self.now ps → result ≡ length ps }
    {
        self.totals.count
    }

    // The highest cell named, plus 1, or 0.
    pub fn reach(&self) -> u32
        ensures value { result ≡ self.now.totals.reach }
        ensures told { (ps : List Posting) → Tells self.now ps → result ≡ reach ps }
    {
        self.totals.reach
    }

    // How many cells are read and written.
    pub fn length(&self) -> u32
        ensures value { result ≡ self.now.totals.length }
        ensures told { (ps : List Posting) → Tells self.now ps → result ≡ total_length ps }
    {
        self.totals.length
    }

    pub fn postings(&self) -> Postings<'_>
        ensures { (ps : List Posting) → Tells self.now ps → Ahead result ps }
    {
        self.postings_from(HEADER_BYTES)
    }

    // A cursor at any place of the text.
    pub fn postings_from(&self, place: usize) -> Postings<'_>
        ensures text { result.text.now ≡ self.now.text.items }
        ensures code { result.code ≡ self.now.code }
        ensures at { result.at ≡ place }
    {
        Postings {
            text: self.text.as_slice(),
            code: self.code,
            at: place,
        }
    }
}

impl Iterator for Postings<'_> {
    type Item = Posting;

    ghost next_gives = { Takes };

    ghost remaining = { λ s. at_most (length s.text.now - s.at) };

    fn next(&mut self) -> Option<Posting> {
        if self.at >= self.text.len() {
            return None;
        }
        let (posting, used) = read_line(self.code, &self.text[self.at..]).ok()?;
        self.at += used;
        Some(posting)
    }
}
