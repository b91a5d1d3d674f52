// The inside of a transaction, by what it asks and what it becomes when it is told.
ghost use Rattle.std.specs.Prelude.{◌≡◌, ℕ, ℤ};
ghost use Rattle.body.specs.declared.request.Request.{Request};
ghost use Rattle.body.specs.Meaning.{Lawful};

use super::request::Request;

pub trait Body: Sized {
    // The number of this kind of body. It is no enum, since kinds are open: a crate above may add one.
    const KIND: u32;

    // The constant, as clauses name it.
    ghost KIND: { ℕ };

    // What it asks for now.
    ghost asks: { Self → Request };

    // What it becomes when it is told an amount.
    ghost told: { Self → ℤ → Self };

    // What it becomes when it is told that its write was taken.
    ghost taken: { Self → Self };

    // Its start.
    ghost begin: { Self → Self };

    // The most requests that are still to come.
    ghost left: { Self → ℕ };

    // Every cell that it names lies below this.
    ghost reach: { Self → ℕ };

    // The most requests from its start on.
    ghost len: { Self → ℕ };

    fn request(&self) -> Request
        ensures { result ≡ asks self.now };

    fn tell(&mut self, amount: i64)
        ensures { self.new ≡ told self.old amount };

    fn took(&mut self)
        ensures { self.new ≡ taken self.old };

    fn restart(&mut self)
        ensures { self.new ≡ begin self.old };

    fn reach_of(&self) -> usize
        ensures { result ≡ reach self.now };

    fn length_of(&self) -> usize
        ensures { result ≡ len self.now };

    fn kind_of(&self) -> u32
        ensures { result ≡ KIND }
    {
        Self::KIND
    }

    ghost lawful: { Lawful asks told taken begin left reach len };
}
