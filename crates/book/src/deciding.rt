// The step that a seat is to take.
ghost use Rattle.std.specs.Prelude.{◌≡◌, ◌++◌, length, slice_index, slice_index_or};
ghost use Rattle.lane.specs.Calls.{entry_of, there};
ghost use Rattle.lane.specs.Logs.{cells_of, no_entry};
ghost use Rattle.lane.specs.Narrow.{IsNarrow};
ghost use Rattle.lane.specs.Phases.{cell_step, master_run_step, run_step, step_at};
ghost use Rattle.lane.specs.State.{stale_in};
ghost use Rattle.book.specs.Views.{shared_in, work_in};

use super::sight::Sight;
use body::{Body, Request};
use lane::{Phase, Step};
use logs::{cell_at, has, lookup, written_at};
use steps::is_stale;

impl Sight<'_> {
    // The phase is kept in the book between calls, so a match on it is plainer than a closure, which cannot be kept there.
    #[inline(always)]
    pub(crate) fn decide<B: Body>(&self, body: &B) -> Step
        requires { IsNarrow (B.Body.asks body.now) }
        ensures { result ≡ step_at B.Body (shared_in self.now) self.now.seat (work_in body.now self.now) self.now.seated.phase }
    {
        let common = self.common;
        let seated = self.seated;
        match seated.phase {
            Phase::Reserve => steps::reserve(common.paused),
            Phase::MasterLook => steps::master_look(common.number),
            Phase::Take => steps::take(common.number),
            Phase::MasterRun => self.master(body.request()),
            Phase::Put { cell, amount } => steps::put(cell, amount),
            Phase::Begin => steps::begin(common.paused, common.number),
            Phase::Run => self.run(body.request()),
            Phase::Check { cell, loaded } => steps::check(
                is_stale(self.marks, seated.start, cell),
                has(self.reads, cell),
                self.reads.len() as u32,
                cell,
                loaded,
            ),
            Phase::Wait => steps::wait(common.queue.is_first(self.seat)),
            Phase::Look { checked } => steps::look(common.number, seated.way, checked),
            Phase::Prevalidate { seen, at } => {
                steps::prevalidate(self.entry_is_stale(at), self.entries(), seen, at)
            }
            Phase::Swap { checked, seen } => steps::swap(common.number, common.flag, checked, seen),
            Phase::Validate { at } => steps::validate(self.entry_is_stale(at), self.entries(), at),
            Phase::Mark { at } => steps::mark(written_at(self.writes, at).cell, at),
            Phase::Cell { at } => self.emit(at),
            Phase::Release => steps::release(common.number, seated.way),
            Phase::LetGo => steps::let_go(seated.way),
            Phase::Quit => steps::quit(),
            Phase::Leave => steps::leave(),
        }
    }

    // Whether the entry of the logs that the step works on, if it works on one, is of a cell that there is.
    #[inline(always)]
    pub(crate) fn entry_there(&self) -> bool
        ensures { result ≡ there (length self.now.cells.now) (entry_of (work_in (tt {0}) self.now) self.now.seated.phase) }
    {
        let cell = match self.seated.phase {
            Phase::Prevalidate { at, .. } | Phase::Validate { at } => {
                cell_at(self.reads, self.writes, at)
            }
            Phase::Mark { at } | Phase::Cell { at } => written_at(self.writes, at).cell,
            _ => return true,
        };
        (cell as usize) < self.cells.len()
    }

    // What the master's body asks for. Its cell fits 32 bits; a type of narrow requests would be `Request` written again. `as` is
    // proved to lose nothing here, where `try_from` would want a refusal that cannot come.
    #[inline(always)]
    fn master(&self, request: Request) -> Step
        requires { IsNarrow request }
        ensures { result ≡ master_run_step self.now.common.now.number self.now.cells.now request }
    {
        match request {
            Request::Read(cell) => steps::master_read(self.cells, cell as u32),
            Request::Write(cell, amount) => steps::master_write(cell as u32, amount),
            Request::End => steps::master_end(self.common.number),
        }
    }

    // What a helper's body asks for.
    #[inline(always)]
    fn run(&self, request: Request) -> Step
        requires { IsNarrow request }
        ensures { result ≡ run_step (shared_in self.now) (work_in (tt {0}) self.now) request }
    {
        let start = self.seated.start;
        let written = self.writes.len() as u32;
        match request {
            Request::Read(cell) => {
                let cell = cell as u32;
                steps::read(self.cells, cell, lookup(self.writes, cell))
            }
            Request::Write(cell, amount) => {
                let cell = cell as u32;
                steps::write(
                    is_stale(self.marks, start, cell),
                    has(self.writes, cell),
                    written,
                    cell,
                    amount,
                )
            }
            Request::End => steps::end(self.common.number, self.seated.way, start, written),
        }
    }

    // Sets the cell of an entry of the write log.
    #[inline(always)]
    fn emit(&self, at: u32) -> Step
        ensures { let entry = slice_index_or self.now.writes.now at no_entry in result ≡ cell_step entry.cell entry.amount (length self.now.writes.now) at }
    {
        let entry = written_at(self.writes, at);
        steps::set_cell(entry.cell, entry.amount, self.writes.len() as u32, at)
    }

    // Whether the mark of an entry of the logs is stale.
    #[inline(always)]
    fn entry_is_stale(&self, at: u32) -> bool
        ensures { result ≡ stale_in self.now.marks.now self.now.seated.start (slice_index (self.now.reads.now ++ cells_of self.now.writes.now) at) }
    {
        is_stale(
            self.marks,
            self.seated.start,
            cell_at(self.reads, self.writes, at),
        )
    }

    // How many entries both logs have.
    #[inline(always)]
    fn entries(&self) -> u32
        ensures { result ≡ length (self.now.reads.now ++ cells_of self.now.writes.now) }
    {
        (self.reads.len() + self.writes.len()) as u32
    }
}
