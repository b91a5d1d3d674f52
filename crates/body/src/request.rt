// What a body asks for next.
ghost use Rattle.std.specs.Prelude.{◌≡◌};
ghost use Rattle.body.specs.Tests.{kept};

use money::is_within;

#[derive(Clone, Copy, Debug, PartialEq)]
pub enum Request {
    // To be told the amount in a cell.
    Read(usize),
    // That a cell get this amount.
    Write(usize, i64),
    // Nothing more.
    End,
}

impl Request {
    // The request, where it names a cell below the reach and writes an amount within the limit; otherwise the end.
    pub(crate) fn kept(self, reach: u32) -> Request
        ensures { result ≡ kept reach self }
    {
        match self {
            Request::Read(cell) if cell < reach as usize => self,
            Request::Write(cell, amount) if cell < reach as usize && is_within(amount) => self,
            _ => Request::End,
        }
    }
}
