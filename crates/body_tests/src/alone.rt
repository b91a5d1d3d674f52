// What the tables share: a body is run alone on a list of cells, and what it was handed and the cells are compared.
// Handle and heap go side by side: a helper may not take the runtime, and a bound for both would make its vectors generic.
use body::{Body, Request};
use std::alloc::{AllocError, Global};
use std::process::Abort;
use std::test::Fail;

// The cells that a body is run on, what it is handed, and the cells that it leaves.
#[derive(Clone, Copy)]
pub struct Run<'a> {
    pub cells: &'a [i64],
    pub handed: &'a [i64],
    pub left: &'a [i64],
}

// Whether the body is also given the telling that does not answer its request, each time before the one that does.
#[derive(Clone, Copy)]
pub enum Tellings {
    Right,
    Wrong,
}

// Cells that a body reads and writes, with the amounts that it was handed so far.
#[derive(Drop)]
struct Cells {
    now: Vec<i64>,
    handed: Vec<i64>,
}

impl Cells {
    fn new(heap: Global, cells: &[i64]) -> Result<Cells, AllocError> {
        Ok(Cells {
            now: cells.to_vec(heap)?,
            handed: Vec::new(heap),
        })
    }

    // Does what is asked for, and tells the body.
    fn answer<B: Body>(
        &mut self,
        rt: &impl Abort,
        body: &mut B,
        asked: Request,
        name: &str,
    ) -> Result<(), Fail> {
        match asked {
            Request::Read(cell) => {
                assert!(rt; cell < self.now.len(), "{name}");
                let amount = self.now[cell];
                self.handed.push(amount)?;
                body.tell(amount);
            }
            Request::Write(cell, amount) => {
                assert!(rt; cell < self.now.len(), "{name}");
                self.now[cell] = amount;
                body.took();
            }
            Request::End => {}
        }
        Ok(())
    }

    // Asks at most so many times, and answers each request. A failure tells by this name which run it is.
    fn answer_all<B: Body>(
        &mut self,
        rt: &impl Abort,
        body: &mut B,
        turns: usize,
        tellings: Tellings,
        name: &str,
    ) -> Result<(), Fail> {
        // As many turns as asked for: nothing is looked up by their count.
        for _ in 0..turns {
            let asked = body.request();
            // Being asked changes nothing.
            assert_eq!(rt; body.request(), asked, "{name}");
            if let Tellings::Wrong = tellings {
                tell_wrong(body, asked);
                assert_eq!(rt; body.request(), asked, "{name}, told wrong");
            }
            self.answer(rt, body, asked, name)?;
        }
        Ok(())
    }
}

// Tellings that do not answer the request: they change nothing.
fn tell_wrong<B: Body>(body: &mut B, asked: Request) {
    match asked {
        Request::Read(_) => body.took(),
        Request::Write(_, amount) => {
            body.tell(amount);
            body.tell(7);
        }
        Request::End => {
            body.tell(7);
            body.took();
        }
    }
}

// Restarted and run alone on the cells, the body is handed these amounts, leaves these cells and ends within its length.
pub(crate) fn runs<B: Body>(
    rt: &impl Abort,
    heap: Global,
    body: &mut B,
    tellings: Tellings,
    run: Run<'_>,
    name: &str,
) -> Result<(), Fail> {
    let mut cells = Cells::new(heap, run.cells)?;
    body.restart();
    cells.answer_all(rt, body, body.length_of(), tellings, name)?;
    assert!(rt;
        cells.handed.as_slice() == run.handed,
        "{name}: what was handed"
    );
    assert!(rt; cells.now.as_slice() == run.left, "{name}: the cells");
    assert_eq!(rt; body.request(), Request::End, "{name}");
    Ok(())
}

// The same from the start on, with wrong tellings, and after a restart at each place in the middle.
pub(crate) fn does<B: Body>(
    rt: &impl Abort,
    heap: Global,
    body: &mut B,
    run: Run<'_>,
    name: &str,
) -> Result<(), Fail> {
    for tellings in [Tellings::Right, Tellings::Wrong] {
        runs(rt, heap, body, tellings, run, name)?;
    }
    // Restarted after each number of turns: nothing is looked up by it.
    for turns in 0..body.length_of() {
        body.restart();
        Cells::new(heap, run.cells)?.answer_all(rt, body, turns, Tellings::Right, name)?;
        runs(rt, heap, body, Tellings::Right, run, name)?;
    }
    Ok(())
}

// What a body tells of itself. Its kind is a number, as the trait has it.
#[derive(Clone, Copy, Debug, PartialEq)]
pub struct Measures {
    pub reach: usize,
    pub length: usize,
    pub kind: u32,
}

impl Measures {
    fn of<B: Body>(body: &B) -> Measures {
        Measures {
            reach: body.reach_of(),
            length: body.length_of(),
            kind: body.kind_of(),
        }
    }
}

// A body has these measures, and they never change.
pub(crate) fn measured<B: Body>(rt: &impl Abort, body: &mut B, measures: Measures) {
    assert_eq!(rt; Measures::of(body), measures);
    body.tell(1);
    body.took();
    assert_eq!(rt; Measures::of(body), measures);
}
