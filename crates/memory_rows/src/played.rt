//! What comes of the lines of a row.
use crate::asker::Asker;
use crate::exchange::Exchange;
use adr_machine::Desk;
use anyhow::Result;
use row_desks::holds;
use std::alloc::Global;

/// What came of a line.
#[derive(Clone, Copy)]
enum Came {
    /// It was answered as with ample memory.
    Ample,
    /// It was answered with want of memory and changed nothing, and then, told again, as with ample memory.
    Again,
    /// It was taken, and its answer could not be told.
    Taken,
    /// None of these.
    Wrong,
}

/// How many lines each came of.
#[derive(Clone, Copy)]
pub struct Counts {
    pub ample: u64,
    pub again: u64,
    pub taken: u64,
    pub wrong: u64,
}

/// What says that memory is wanted: nothing at all, a refusal of the node, or a reply.
fn wants_memory(printed: Option<&[u8]>) -> bool {
    match printed {
        Some(text) => {
            text == b"refused 1 OutOfMemory\n".as_slice()
                || text
                    == b"500 {\"detail\":\"out of memory\",\"status\":500,\"title\":\"OutOfMemory\"}\n".as_slice()
        }
        None => true,
    }
}

fn came_again<D: Desk>(
    alloc: Global,
    desk: &mut D,
    asker: &Asker,
    exchange: &Exchange,
) -> Result<Came> {
    match asker.told(alloc, desk, exchange.line)? {
        Some(printed) if printed.as_slice() == exchange.wanted => Ok(Came::Again),
        _ => Ok(Came::Wrong),
    }
}

fn came_of<D: Desk>(
    alloc: Global,
    desk: &mut D,
    asker: &Asker,
    exchange: &Exchange,
) -> Result<Came> {
    let before = desk.image()?;
    let printed = asker.told(alloc, desk, exchange.line)?;
    match &printed {
        Some(printed) if printed.as_slice() == exchange.wanted => return Ok(Came::Ample),
        _ => {}
    }
    if !wants_memory(printed.as_deref()) {
        return Ok(Came::Wrong);
    }
    if !holds(desk, &before)? {
        return Ok(Came::Taken);
    }
    came_again(alloc, desk, asker, exchange)
}

/// Plays the lines of a row, and counts what came of them.
pub fn play<D: Desk>(
    alloc: Global,
    desk: &mut D,
    asker: &Asker,
    exchanges: &[Exchange],
) -> Result<Counts> {
    let mut counts = Counts {
        ample: 0,
        again: 0,
        taken: 0,
        wrong: 0,
    };
    for exchange in exchanges {
        let count = match came_of(alloc, desk, asker, exchange)? {
            Came::Ample => &mut counts.ample,
            Came::Again => &mut counts.again,
            Came::Taken => &mut counts.taken,
            Came::Wrong => &mut counts.wrong,
        };
        *count = count.saturating_add(1);
    }
    Ok(counts)
}
