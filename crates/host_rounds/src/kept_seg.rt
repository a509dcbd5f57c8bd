//! A segment that a line of a log keeps apart.

ghost use Rattle.std.specs.Prelude.{◌≡◌, IfOk};

use std::alloc::{AllocError, Global};
use std::marker::Model;
use tas_model::Seg;

/// A segment in memory of its own, seen as that segment. So lines that tell of no segment stay small.
#[derive(Drop)]
pub struct KeptSeg {
    seg: Box<Seg>,
}

impl Model for KeptSeg {
    ghost use Rattle.tas_model.specs.declared.entry.Seg.{Seg};

    ghost Value = { Seg };

    ghost view = { λ k. k.seg.value };
}

impl KeptSeg {
    /// This segment. The error is want of memory.
    pub fn new(alloc: Global, seg: Seg) -> Result<KeptSeg, AllocError>
        ensures { IfOk result (λ k. k ≡ seg) }
    {
        Ok(KeptSeg {
            seg: Box::new(alloc, seg)?,
        })
    }

    /// The segment.
    pub fn get(&self) -> &Seg
        ensures { result.now ≡ self.now }
    {
        &*self.seg
    }
}
