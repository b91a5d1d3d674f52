// Which totals and scripts are refused, and with which number.
use super::limits::{BEYOND, LEAST, LIMIT, MOST};
use body::ScriptRefusal::{BadStep, TooMany};
use body::ScriptStep::{Carry, Put, Read};
use body::{Script, ScriptStep, Total, TotalRefusal};
use std::alloc::Global;
use std::process::Abort;
use std::test::Fail;

#[test]
fn numbers(rt: HostRuntime) {
    assert_eq!(rt; TotalRefusal.number(), 70);
    assert_eq!(rt; TooMany.number(), 71);
    assert_eq!(rt; BadStep.number(), 72);
}

// The number of the refusal, if there is one.
fn total_number(first: u32, last: u32, target: u32) -> Option<u32> {
    Total::new(first, last, target)
        .err()
        .map(|refusal| refusal.number())
}

#[test]
fn totals(rt: HostRuntime) {
    let made = [
        (0, 0, 0),
        (0, 0, 4095),
        (0, 4095, 0),
        (4095, 4095, 4095),
        (4095, 4095, 0),
        (4094, 4095, 1),
        (0, 1, 0),
    ];
    for (first, last, target) in made {
        assert_eq!(rt;
            total_number(first, last, target),
            None,
            "{first} {last} {target}"
        );
    }
    let refused = [
        // The range runs backward.
        (1, 0, 0),
        (4095, 4094, 0),
        (4095, 0, 0),
        // A cell above the highest.
        (4096, 4096, 0),
        (4096, 4096, 4096),
        (4095, 4096, 0),
        (0, 4096, 0),
        (0, 0, 4096),
        (4096, 0, 0),
        // Numbers that would be cells if their high bits were left out.
        (65_536, 65_536, 0),
        (0, 65_536, 0),
        (65_536, 0, 0),
        (0, 0, 65_536),
        (0, 4_294_901_760, 0),
        (4_294_967_295, 4_294_967_295, 0),
        (0, 4_294_967_295, 0),
        (4_294_967_295, 0, 0),
        (0, 0, 4_294_967_295),
        (4_294_967_295, 4_294_967_295, 4_294_967_295),
    ];
    for (first, last, target) in refused {
        assert_eq!(rt;
            total_number(first, last, target),
            Some(70),
            "{first} {last} {target}"
        );
    }
}

// The number of the refusal of a script of so many reads with this step among them, at this place, if it is refused.
fn script_number(
    rt: &impl Abort,
    heap: Global,
    reads: usize,
    place: usize,
    step: ScriptStep,
) -> Result<Option<u32>, Fail> {
    let mut steps = vec![in heap; Read { cell: 0 }; reads]?;
    assert!(rt; place <= steps.len());
    steps.insert(place, step)?;
    Ok(Script::new(steps).err().map(|refusal| refusal.number()))
}

// One sound or faulty step, alone, and in a script of 16 steps at its first, its middle and its last place. A step too many is
// answered first.
fn one_step(
    rt: &impl Abort,
    heap: Global,
    step: ScriptStep,
    number: Option<u32>,
) -> Result<(), Fail> {
    let table = [
        (0, 0, number),
        (15, 0, number),
        (15, 7, number),
        (15, 15, number),
        (16, 0, Some(71)),
        (16, 16, Some(71)),
        (40, 3, Some(71)),
    ];
    for (reads, place, answer) in table {
        assert_eq!(rt;
            script_number(rt, heap, reads, place, step)?,
            answer,
            "{step:?} at {place} of {reads}"
        );
    }
    Ok(())
}

#[test]
fn cells(rt: HostRuntime) -> Result<(), Fail> {
    let heap = rt.alloc();
    let table = [
        (0, None),
        (1, None),
        (4094, None),
        (4095, None),
        (4096, Some(72)),
        (65_536, Some(72)),
        (4_294_967_295, Some(72)),
    ];
    for (cell, number) in table {
        for step in [Read { cell }, Put { cell, amount: 1 }, Carry { cell }] {
            one_step(&rt, heap, step, number)?;
        }
    }
    Ok(())
}

#[test]
fn amounts(rt: HostRuntime) -> Result<(), Fail> {
    let heap = rt.alloc();
    let table = [
        (0, None),
        (-1, None),
        (LIMIT, None),
        (-LIMIT, None),
        (BEYOND, Some(72)),
        (-BEYOND, Some(72)),
        (MOST, Some(72)),
        (LEAST, Some(72)),
    ];
    for (amount, number) in table {
        for (cell, answer) in [(0, number), (4095, number), (4096, Some(72))] {
            one_step(&rt, heap, Put { cell, amount }, answer)?;
        }
    }
    Ok(())
}
