//! A board, and the receipts of what is on it.

ghost use Rattle.std.specs.Prelude.{◌≡◌, IfOk, IfErr};

use boxcar::Pushed;
use machine_batches::Batch;
use std::alloc::{AllocError, Global};
use std::sync::Wait;

/// The batches that were published.
#[derive(Drop)]
pub struct Board {
    batches: boxcar::Vec<Batch>,
}

/// What shows that a batch is on a board.
#[derive(Drop)]
pub struct Receipt {
    pushed: Pushed<Batch>,
}

impl Board {
    ghost use Rattle.verdicts.specs.Receipts.{IsReceiptOf, shown_by};

    /// A board with nothing on it.
    pub fn new(alloc: Global) -> Result<Board, AllocError> {
        let batches = boxcar::Vec::new(alloc)?;
        Ok(Board { batches })
    }

    /// Publishes a batch. It comes back only where there is no memory for it, or after 2^63 - 33
    /// publications.
    pub fn publish(&self, rt: &impl Wait, batch: Batch) -> Result<Receipt, Batch>
        ensures of_board { IfOk result (λ receipt. IsReceiptOf self.now receipt) }
        ensures batch { IfOk result (λ receipt. shown_by receipt ≡ batch) }
        ensures back { IfErr result (λ refused. refused ≡ batch) }
    {
        let pushed = self.batches.push_shown(rt, batch)?;
        Ok(Receipt { pushed })
    }

    /// The batch that was published for the receipt.
    pub fn read(&self, receipt: &Receipt) -> &Batch
        requires { IsReceiptOf self.now receipt.now }
        ensures { result.now ≡ shown_by receipt.now }
    {
        self.batches.value(&receipt.pushed)
    }
}
