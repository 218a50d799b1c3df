//! A small project played: what is reported, line by line.
use formats::script::{Event, Input};
use project::run::{Parts, RunError, play_events};
use std::alloc::{AllocError, Global};
use std::test::Fail;

/// `v2 := v0 + 1`: load v0, push 1, add, store v2.
const CODE: [u16; 16] = [1, 0, 0, 0, 0, 1, 0, 0, 4, 0, 0, 0, 2, 2, 0, 0];

/// A scan, so long after the last, in which v0 comes in.
fn scan(heap: Global, elapsed: u64, value: u16) -> Result<Event, AllocError> {
    let inputs = vec![in heap; Input { variable: 0, value }]?;
    Ok(Event::Scan { elapsed, inputs })
}

/// A scan that names no input.
fn scan_on(heap: Global, elapsed: u64) -> Event {
    Event::Scan {
        elapsed,
        inputs: Vec::new(heap),
    }
}

/// A scan before the start, and one that goes on with what it said; a forced point, and a cut before the stamp is written.
fn first_day(events: &mut Vec<Event>, heap: Global) -> Result<(), AllocError> {
    events.push(scan(heap, 0, 4)?)?;
    events.push(Event::Start)?;
    events.push(scan_on(heap, 2))?;
    events.push(Event::Force {
        point: 2,
        number: 9,
    })?;
    events.push(scan(heap, 1, 6)?)?;
    events.push(Event::Cut {
        elapsed: 1,
        at: 0,
        junk: 3,
        inputs: Vec::new(heap),
    })?;
    Ok(())
}

/// A start, and requests that are refused.
fn second_day(events: &mut Vec<Event>, heap: Global) -> Result<(), AllocError> {
    events.push(Event::Start)?;
    events.push(Event::Force {
        point: 64,
        number: 1,
    })?;
    events.push(scan(heap, 70000, 8)?)?;
    events.push(scan_on(heap, 3))?;
    Ok(())
}

/// v2 is forced to 9 while the program puts 7, so 7 is kept; what the refused scan says of v0 counts later.
#[test]
fn two_days(rt: HostRuntime) -> Result<(), Fail> {
    let heap = rt.alloc();
    let mut inputs = [0; 64];
    inputs[0] = 1;
    let mut firsts = [0; 64];
    firsts[1] = 7;
    let mut events = Vec::new(heap);
    first_day(&mut events, heap)?;
    second_day(&mut events, heap)?;
    let project = Parts {
        kept: 3,
        inputs: &inputs,
        firsts: &firsts,
        code: &CODE,
    };
    let text = play_events(heap, &project, events.as_slice())?;
    assert_eq!(rt;
        text.as_str(),
        "refused 6 at 0\nstart: v0 0 v1 7 v2 0\nscan: v0 4 v2 5\nscan: v0 6 v2 9\nstart: v0 6 v1 7 v2 7\nrefused 9 at 0\nrefused 7 at 0\nscan: v0 8 v2 9\n"
    );
    Ok(())
}

/// `v0 := 1 / 0` lights the lamp once; with no kept variables a start says nothing more.
#[test]
fn lamp(rt: HostRuntime) -> Result<(), Fail> {
    let heap = rt.alloc();
    let code: [u16; 16] = [0, 1, 0, 0, 0, 0, 0, 0, 4, 3, 0, 0, 2, 0, 0, 0];
    let mut events = Vec::new(heap);
    events.push(Event::Start)?;
    events.push(scan_on(heap, 1))?;
    events.push(scan_on(heap, 1))?;
    let project = Parts {
        kept: 0,
        inputs: &[0; 64],
        firsts: &[0; 64],
        code: &code,
    };
    let text = play_events(heap, &project, events.as_slice())?;
    assert_eq!(rt; text.as_str(), "start:\nscan: lamp lit\nscan:\n");
    Ok(())
}

/// 65 variables can't be kept.
#[test]
fn too_many_kept(rt: HostRuntime) -> Result<(), Fail> {
    let heap = rt.alloc();
    let events = Vec::new(heap);
    let project = Parts {
        kept: 65,
        inputs: &[0; 64],
        firsts: &[0; 64],
        code: &CODE,
    };
    match play_events(heap, &project, events.as_slice()) {
        Err(RunError::Kept) => Ok(()),
        _ => Err(Fail::new("taken")),
    }
}
