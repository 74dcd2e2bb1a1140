//! A box for each worker, in which it leaves its request while it waits for a file.
//!
//! Used by: `one_call`, `engine`, `start`, `combiner`.
use crate::brand::EngineBrand;
use crate::errand::{Errand, ErrandLasts};
use mw_disk::Disk;
use mw_loan::LoanBox;
use mw_turns::{Bell, CallFlag};
use mw_words::MAX_WORKERS;
use std::alloc::{AllocError, Global};

/// A worker's box, and the bell by which it sleeps.
#[derive(Drop)]
pub(crate) struct ErrandBox<J: EngineBrand, D: Disk> {
    pub(crate) loan: LoanBox<Errand, ErrandLasts<J, D>>,
    pub(crate) bell: Bell,
    /// Whether the request's call was made. Whoever makes it sets this while it holds the file's lock.
    pub(crate) flag: CallFlag,
}

impl<J: EngineBrand, D: Disk> ErrandBox<J, D> {
    /// Makes an empty box.
    ///
    /// # Errors
    ///
    /// [`AllocError`] if memory is out.
    fn new(alloc: Global) -> Result<ErrandBox<J, D>, AllocError> {
        Ok(ErrandBox {
            loan: LoanBox::new(alloc)?,
            bell: Bell::new(),
            flag: CallFlag::new(),
        })
    }
}

/// Makes an empty box for each worker.
///
/// # Errors
///
/// [`AllocError`] if memory is out.
pub(crate) fn errand_boxes<J: EngineBrand, D: Disk>(
    alloc: Global,
) -> Result<Vec<ErrandBox<J, D>>, AllocError> {
    let mut boxes = Vec::with_capacity(alloc, usize::from(MAX_WORKERS))?;
    for _ in 0..MAX_WORKERS {
        boxes.push(ErrandBox::new(alloc)?)?;
    }
    Ok(boxes)
}
