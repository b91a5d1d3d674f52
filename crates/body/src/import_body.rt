// An import is a body: it books its postings one after the other, reading its text line by line.
ghost use Rattle.std.specs.Prelude.{◌≡◌};
ghost use Rattle.body.specs.Imports.{after_step, import_answered, import_asks, import_begin, import_left, import_len, import_reach, import_step_asks, import_taken, import_told, import_written, next_line, skipped};
ghost use Rattle.body.specs.Imported.{import_lawful};

use super::body::Body;
use super::importing::{Import, ImportStep};
use super::request::Request;
use imports::{HEADER_BYTES, Posting};
use money::is_within;

impl Body for Import {
    const KIND: u32 = 1;

    ghost KIND = { 1 };

    ghost asks = { import_asks };

    ghost told = { import_told };

    ghost taken = { import_taken };

    ghost begin = { import_begin };

    ghost left = { import_left };

    ghost reach = { import_reach };

    ghost len = { import_len };

    ghost lawful = { import_lawful };

    fn request(&self) -> Request {
        self.step.request().kept(self.checked.reach())
    }

    fn tell(&mut self, amount: i64) {
        if let Request::Read(_) = self.request() {
            self.read(amount);
        }
    }

    fn took(&mut self) {
        if let Request::Write(_, _) = self.request() {
            self.wrote();
        }
    }

    fn restart(&mut self) {
        self.taken = 0;
        self.at = HEADER_BYTES;
        self.unposted = 0;
        self.take_line();
    }

    fn reach_of(&self) -> usize {
        self.checked.reach() as usize
    }

    fn length_of(&self) -> usize {
        self.checked.length() as usize
    }
}

impl Import {
    // Goes on after an amount that was read: to what follows it, or past the line.
    fn read(&mut self, amount: i64)
        ensures { self.new ≡ import_answered self.old self.old.step amount }
    {
        match self.step.after(amount) {
            Some(step) => self.step = step,
            None => self.skip_line(),
        }
    }

    // Goes on after a write that was taken.
    fn wrote(&mut self)
        ensures { self.new ≡ import_written self.old self.old.step }
    {
        match self.step {
            ImportStep::WriteBoth { to, grown, .. } => {
                self.step = ImportStep::Write { cell: to, grown };
            }
            ImportStep::Write { .. } => self.take_line(),
            _ => {}
        }
    }

    // Counts the line as unposted, and takes the next.
    fn skip_line(&mut self)
        ensures { self.new ≡ skipped self.old }
    {
        self.unposted = self.unposted.saturating_add(1);
        self.take_line();
    }

    // Goes on to the posting that the text has next, or to the end.
    fn take_line(&mut self)
        ensures { self.new ≡ next_line self.old.checked self.old.taken self.old.unposted }
    {
        let mut postings = self.checked.postings_from(self.at);
        match postings.next() {
            Some(posting) => {
                self.taken += 1;
                self.at = postings.place();
                self.step = ImportStep::Read { posting };
            }
            None => self.step = ImportStep::Done,
        }
    }
}

impl ImportStep {
    // What follows when the step is told an amount; nothing where an amount is beyond the limit.
    fn after(self, told: i64) -> Option<ImportStep>
        ensures { result ≡ after_step self told }
    {
        match self {
            ImportStep::Read {
                posting: Posting::Post { cell, amount },
            } => {
                let grown = told.saturating_add(amount);
                if is_within(told) && is_within(grown) {
                    Some(ImportStep::Write { cell, grown })
                } else {
                    None
                }
            }
            ImportStep::Read {
                posting: Posting::Transfer { from, to, amount },
            } => Some(ImportStep::ReadOther {
                from,
                to,
                amount,
                held: told,
            }),
            ImportStep::ReadOther {
                from,
                to,
                amount,
                held,
            } => {
                let left = held.saturating_sub(amount);
                let grown = told.saturating_add(amount);
                if is_within(held) && is_within(told) && is_within(left) && is_within(grown) {
                    Some(ImportStep::WriteBoth {
                        from,
                        left,
                        to,
                        grown,
                    })
                } else {
                    None
                }
            }
            _ => Some(self),
        }
    }

    fn request(self) -> Request
        ensures { result ≡ import_step_asks self }
    {
        match self {
            ImportStep::Read {
                posting: Posting::Post { cell, .. },
            } => Request::Read(usize::from(cell)),
            ImportStep::Read {
                posting: Posting::Transfer { from, .. },
            } => Request::Read(usize::from(from)),
            ImportStep::ReadOther { to, .. } => Request::Read(usize::from(to)),
            ImportStep::WriteBoth { from, left, .. } => Request::Write(usize::from(from), left),
            ImportStep::Write { cell, grown } => Request::Write(usize::from(cell), grown),
            ImportStep::Done => Request::End,
        }
    }
}
