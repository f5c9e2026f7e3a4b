//! Each growth refused in turn. A page is written in an arena, with a text of some length, and then all that is left of
//! the arena is taken. Where the next call is refused, it is made again with the arena's room back, and the page is
//! then that of ample memory: so the refused call left nothing.
use crate::web::steps::Step::{End, LineBreak, Start, StartLink, StartLinkToId, StartWithId, Text};
use crate::web::steps::{Step, apply, new};
use bumpalo::Bump;
use std::alloc::{AllocError, Allocator};
use std::process::Abort;
use std::test::Fail;
use web_page::Element::{Em, Footer, Heading, Li, Main, P, Section, Ul};
use web_page::{Level, Page, PageError};

/// How many bytes an arena has: more than a page of these tests takes.
const BYTES: usize = 8192;

/// How many lengths the text has: as many as lie between two growths of a page, and more.
const LENGTHS: usize = 320;

// A call, with those between the text and it, and those after it.
struct Row {
    before: &'static [Step],
    call: Step,
    after: &'static [Step],
}

const ROWS: [Row; 10] = [
    Row {
        before: &[],
        call: Text("b & c"),
        after: &[End, End],
    },
    Row {
        before: &[],
        call: LineBreak,
        after: &[End, End],
    },
    Row {
        before: &[],
        call: Start(Em),
        after: &[End, End, End],
    },
    Row {
        before: &[],
        call: StartLink("#\"b\""),
        after: &[End, End, End],
    },
    Row {
        before: &[],
        call: StartLinkToId("\"b\""),
        after: &[End, End, End],
    },
    Row {
        before: &[],
        call: End,
        after: &[End],
    },
    Row {
        before: &[End],
        call: StartWithId(Section, "b"),
        after: &[End, End],
    },
    Row {
        before: &[End],
        call: StartWithId(Heading(Level::Two), "b"),
        after: &[Text("b"), End, End],
    },
    Row {
        before: &[End, End],
        call: Start(Footer),
        after: &[End],
    },
    Row {
        before: &[End, Start(Ul), Start(Li)],
        call: Text("b"),
        after: &[End, End, End],
    },
];

// A page with a text of that many letters and one more in it.
fn begin<A: Allocator + Copy>(alloc: A, length: usize, row: &Row) -> Result<Page<A>, PageError> {
    let mut page = new(alloc)?;
    page.start(Main)?;
    page.start(P)?;
    page.text("a")?;
    for _ in 0..length {
        page.text("a")?;
    }
    for step in row.before {
        apply(&mut page, *step)?;
    }
    Ok(page)
}

fn roomy(rt: &(impl Abort + AllocGlobal)) -> Bump {
    let arena = Bump::try_with_capacity(rt.alloc(), BYTES).expect(rt, "an arena");
    arena.set_allocation_limit(Some(0));
    arena
}

// Takes all that an arena has left, except that many bytes.
fn taken<'a>(rt: &impl Abort, arena: &'a Bump, room: usize) -> Vec<u8, &'a Bump> {
    let rest = arena.chunk_capacity().saturating_sub(room);
    Vec::with_capacity(arena, rest).expect(rt, "the rest of an arena")
}

fn finished<A: Allocator>(mut page: Page<A>, row: &Row) -> Result<String<A>, PageError> {
    for step in row.after {
        apply(&mut page, *step)?;
    }
    page.finish()
}

// Whether the row's call is refused after a text of this length.
fn is_refused(rt: &(impl Abort + AllocGlobal), length: usize, row: &Row) -> Result<bool, Fail> {
    let mut ample = begin(rt.alloc(), length, row)?;
    apply(&mut ample, row.call)?;
    let arena = roomy(rt);
    let mut page = begin(&arena, length, row)?;
    let rest = taken(rt, &arena, 0);
    let outcome = apply(&mut page, row.call);
    drop(rest);
    let refused = outcome == Err(PageError::Refused(AllocError));
    if refused {
        apply(&mut page, row.call)?;
    } else {
        outcome?;
    }
    let expected = finished(ample, row)?;
    assert!(rt;
        finished(page, row)?.as_str() == expected.as_str(),
        "{length}"
    );
    Ok(refused)
}

#[test]
fn a_refused_growth_leaves_the_page(rt: HostRuntime) -> Result<(), Fail> {
    for row in &ROWS {
        let mut refusals = 0usize;
        for length in 0..LENGTHS {
            if is_refused(&rt, length, row)? {
                refusals = refusals.saturating_add(1);
            }
        }
        assert!(rt; refusals > 0 && refusals < LENGTHS, "{:?}", row.call);
    }
    Ok(())
}

// Whether a page is refused in that much room.
fn is_new_refused(rt: &(impl Abort + AllocGlobal), room: usize) -> Result<bool, Fail> {
    let arena = roomy(rt);
    let _rest = taken(rt, &arena, room);
    match new(&arena) {
        Ok(_) => Ok(false),
        Err(fault) => {
            assert!(rt; fault == PageError::Refused(AllocError), "{room}");
            Ok(true)
        }
    }
}

#[test]
fn a_refused_page_is_made_with_more(rt: HostRuntime) -> Result<(), Fail> {
    for step in 0..BYTES / 8 {
        if !is_new_refused(&rt, step.saturating_mul(8))? {
            assert!(rt; step > 0);
            return Ok(());
        }
    }
    panic!(rt; "never made")
}

#[test]
fn a_refused_end_gives_the_page_up(rt: HostRuntime) -> Result<(), Fail> {
    let row = &ROWS[0];
    let mut refusals = 0usize;
    for length in 0..LENGTHS {
        let arena = roomy(&rt);
        let mut page = begin(&arena, length, row)?;
        for step in row.after {
            apply(&mut page, *step)?;
        }
        let _rest = taken(&rt, &arena, 0);
        if page.finish().err() == Some(PageError::Refused(AllocError)) {
            refusals = refusals.saturating_add(1);
        }
    }
    assert!(rt; refusals > 0 && refusals < LENGTHS);
    Ok(())
}

#[test]
fn a_body_alone_takes_no_memory(rt: HostRuntime) -> Result<(), Fail> {
    let row = &ROWS[0];
    for length in 0..LENGTHS {
        let mut ample = begin(rt.alloc(), length, row)?;
        let arena = roomy(&rt);
        let mut page = begin(&arena, length, row)?;
        for step in row.after {
            apply(&mut ample, *step)?;
            apply(&mut page, *step)?;
        }
        let _rest = taken(&rt, &arena, 0);
        assert!(rt;
            page.finish_body()?.as_str() == ample.finish_body()?.as_str(),
            "{length}"
        );
    }
    Ok(())
}
