// Currency codes. The code of an import fixes how many digits its amounts have after the point.
ghost use Rattle.std.specs.Prelude.{◌≡◌};
ghost use Rattle.std.specs.Option.{option_map};
ghost use Rattle.money.specs.Amounts.{ReadsCode, places};

#[derive(Clone, Copy, Debug, PartialEq, Eq)]
pub struct Code {
    letters: [u8; 3],
}

impl Code {
    pub fn new(letters: &[u8]) -> Option<Code>
        ensures { ReadsCode letters.now (option_map (λ c. c.letters) result) }
    {
        let letters = <[u8; 3]>::try_from(letters).ok()?;
        let capital = letters.iter().all(u8::is_ascii_uppercase);
        capital.then_some(Code { letters })
    }

    pub fn places(self) -> u32
        ensures { result ≡ places self.letters }
    {
        if self.letters == *b"JPY" { 0 } else { 2 }
    }
}
