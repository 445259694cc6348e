//! The totals of all workers under a lock, and what each worker added to them.
ghost use Rattle.std.specs.Prelude.{◌≡◌, ℕ, ◌-◌, ◌^◌, min};

use crate::counts::batch_counts;
use machine_batches::Batch;
use std::alloc::{AllocError, Global};
use std::marker::{Brand, PhantomData};
use std::sync::ledger::{self, Blank, Book, Ledger};
use std::sync::{Mutex, Wait};

/// The most that a share may have before a round.
const MOST: u64 = 36_028_797_018_963_968;

/// Which tally it is: the names of its four ledgers, and the number of its shares. A call that
/// makes a tally picks it.
pub trait Tallying {
    ghost holds: { ℕ };

    ghost vacuous: { ℕ };

    ghost fails: { ℕ };

    ghost disabled: { ℕ };

    ghost shares: { ℕ };
}

impl Tallying for Brand {
    ghost holds = { 0 };

    ghost vacuous = { 0 };

    ghost fails = { 0 };

    ghost disabled = { 0 };

    ghost shares = { 0 };
}

pub struct HoldsOf<L: Tallying>(PhantomData<L>);

impl<L: Tallying> Ledger for HoldsOf<L> {
    ghost name = { L.holds };

    ghost parts = { L.shares };
}

pub struct VacuousOf<L: Tallying>(PhantomData<L>);

impl<L: Tallying> Ledger for VacuousOf<L> {
    ghost name = { L.vacuous };

    ghost parts = { L.shares };
}

pub struct FailsOf<L: Tallying>(PhantomData<L>);

impl<L: Tallying> Ledger for FailsOf<L> {
    ghost name = { L.fails };

    ghost parts = { L.shares };
}

pub struct DisabledOf<L: Tallying>(PhantomData<L>);

impl<L: Tallying> Ledger for DisabledOf<L> {
    ghost name = { L.disabled };

    ghost parts = { L.shares };
}

/// A number, and the ledger whose total it is, held at the largest number.
#[derive(Drop)]
pub struct Counter<K: Ledger> {
    number: u64,
    book: Book<K>,
    ghost held: { number ≡ min book.total (2 ^ 64 - 1) },
}

/// What lies under the lock.
#[derive(Drop)]
pub struct Totals<L: Tallying> {
    holds: Counter<HoldsOf<L>>,
    vacuous: Counter<VacuousOf<L>>,
    fails: Counter<FailsOf<L>>,
    disabled: Counter<DisabledOf<L>>,
}

/// The totals of all workers.
#[derive(Drop)]
pub struct Tally<L: Tallying> {
    totals: Mutex<Totals<L>>,
}

/// What one worker added to the tally. It has no bytes.
#[derive(Drop)]
pub struct Share<L: Tallying> {
    holds: ledger::Share<HoldsOf<L>>,
    vacuous: ledger::Share<VacuousOf<L>>,
    fails: ledger::Share<FailsOf<L>>,
    disabled: ledger::Share<DisabledOf<L>>,
    ghost vacuous_parts: { vacuous.parts ≡ holds.parts },
    ghost fails_parts: { fails.parts ≡ holds.parts },
    ghost disabled_parts: { disabled.parts ≡ holds.parts },
}

/// Four ledgers that no type stands for yet.
#[derive(Drop)]
pub struct Blanks {
    pub holds: Blank,
    pub vacuous: Blank,
    pub fails: Blank,
    pub disabled: Blank,
}

impl Blanks {
    ghost use Rattle.std.specs.Prelude.{◌≡◌};
    ghost use Rattle.verdicts.specs.Blanks.{HaveParts};

    pub fn new(workers: usize) -> Blanks
        ensures { HaveParts workers result }
    {
        let parts = workers as u64;
        Blanks {
            holds: Blank::new(parts),
            vacuous: Blank::new(parts),
            fails: Blank::new(parts),
            disabled: Blank::new(parts),
        }
    }
}

impl<K: Ledger> Counter<K> {
    ghost use Rattle.std.specs.Prelude.{◌≡◌, ◌+◌, ◌^◌, ◌<◌, ◌≤◌};
    ghost use Rattle.verdicts.specs.Shares.{capped};

    fn add(&mut self, share: &mut ledger::Share<K>, amount: u64) -> u64
        requires part { 0 < share.old.parts }
        requires fits { share.old.amount + amount < 2 ^ 64 }
        ensures amount { share.new.amount ≡ share.old.amount + amount }
        ensures parts { share.new.parts ≡ share.old.parts }
        ensures bound { share.new.amount ≤ result }
    {
        let Counter { number, book } = self;
        book.add(share, amount);
        book.audit(share);
        *number = number.saturating_add(amount);
        *number
    }

    // No less than the share's amount, where that fits.
    fn seen(&mut self, share: &mut ledger::Share<K>) -> u64
        requires part { 0 < share.old.parts }
        ensures amount { share.new.amount ≡ share.old.amount }
        ensures parts { share.new.parts ≡ share.old.parts }
        ensures bound { capped share.old.amount ≤ result }
    {
        self.book.audit(share);
        self.number
    }

    fn total(&mut self, all: &mut ledger::Share<K>) -> u64
        requires { all.old.parts ≡ K.parts }
        ensures { result ≡ capped all.old.amount }
    {
        self.book.audit(all);
        self.number
    }
}

fn opened<K: Ledger>(blank: Blank) -> (Counter<K>, ledger::Share<K>)
    requires name { blank.name ≡ K.name }
    requires parts { blank.parts ≡ K.parts }
    ensures parts { result.1.parts ≡ K.parts }
    ensures amount { result.1.amount ≡ 0 }
{
    let (book, share) = blank.open::<K>();
    (Counter { number: 0, book }, share)
}

impl<L: Tallying> Share<L> {
    ghost use Rattle.std.specs.Prelude.{◌≡◌, ◌+◌, ◌∷◌, [], ◌<◌};
    ghost use Rattle.verdicts.specs.Shares.{parts, amounts, plus};

    // A share of one part, with nothing added.
    fn part(&mut self) -> Share<L>
        requires parts { 1 < parts self.old }
        requires amounts { amounts self.old ≡ 0 ∷ 0 ∷ 0 ∷ 0 ∷ [] }
        ensures part { (parts result ≡ 1) × (parts self.new + 1 ≡ parts self.old) }
        ensures fresh { amounts result ≡ 0 ∷ 0 ∷ 0 ∷ 0 ∷ [] }
        ensures rest { amounts self.new ≡ 0 ∷ 0 ∷ 0 ∷ 0 ∷ [] }
    {
        let Share {
            holds,
            vacuous,
            fails,
            disabled,
        } = self;
        Share {
            holds: holds.split_off(1, 0),
            vacuous: vacuous.split_off(1, 0),
            fails: fails.split_off(1, 0),
            disabled: disabled.split_off(1, 0),
        }
    }

    fn merge(&mut self, other: Share<L>)
        ensures parts { parts self.new ≡ parts self.old + parts other }
        ensures amounts { amounts self.new ≡ plus (amounts self.old) (amounts other) }
    {
        let Share {
            holds,
            vacuous,
            fails,
            disabled,
        } = other;
        self.holds.merge(holds);
        self.vacuous.merge(vacuous);
        self.fails.merge(fails);
        self.disabled.merge(disabled);
    }
}

impl<L: Tallying> Totals<L> {
    ghost use Rattle.std.specs.Prelude.{◌≡◌, ◌+◌, ◌^◌, ◌<◌, ◌≤◌, length, true};
    ghost use Rattle.verdicts.specs.Shares.{parts, amounts, plus, EachWithin, EachAtMost};
    ghost use Rattle.verdicts.specs.Shares.{each_capped};

    fn add(&mut self, share: &mut Share<L>, counts: [u64; 4]) -> [u64; 4]
        requires part { 0 < parts share.old }
        requires fits { EachAtMost (plus (amounts share.old) counts) (2 ^ 56) }
        ensures grown { amounts share.new ≡ plus (amounts share.old) counts }
        ensures parts { parts share.new ≡ parts share.old }
        ensures bound { EachWithin (amounts share.new) result }
    {
        let holds = self.holds.add(&mut share.holds, counts[0]);
        let vacuous = self.vacuous.add(&mut share.vacuous, counts[1]);
        let fails = self.fails.add(&mut share.fails, counts[2]);
        let disabled = self.disabled.add(&mut share.disabled, counts[3]);
        [holds, vacuous, fails, disabled]
    }

    fn audits_within(&mut self, share: &mut Share<L>) -> bool
        requires part { 0 < parts share.old }
        ensures same { amounts share.new ≡ amounts share.old }
        ensures parts { parts share.new ≡ parts share.old }
        ensures within { result ≡ true → EachAtMost (amounts share.old) (2 ^ 55) }
    {
        let holds = self.holds.seen(&mut share.holds);
        let vacuous = self.vacuous.seen(&mut share.vacuous);
        let fails = self.fails.seen(&mut share.fails);
        let disabled = self.disabled.seen(&mut share.disabled);
        holds <= MOST && vacuous <= MOST && fails <= MOST && disabled <= MOST
    }

    fn total(&mut self, mut all: Share<L>) -> [u64; 4]
        requires { parts all ≡ L.shares }
        ensures { result ≡ each_capped (amounts all) }
    {
        let holds = self.holds.total(&mut all.holds);
        let vacuous = self.vacuous.total(&mut all.vacuous);
        let fails = self.fails.total(&mut all.fails);
        let disabled = self.disabled.total(&mut all.disabled);
        [holds, vacuous, fails, disabled]
    }
}

impl<L: Tallying> Tally<L> {
    ghost use Rattle.std.specs.Prelude.{◌≡◌, ◌^◌, ◌<◌, ◌≤◌, ◌∷◌, [], IfOk, All, vec_len, true};
    ghost use Rattle.std.specs.List.{sum_by};
    ghost use Rattle.verdicts.specs.Counts.{counts_of};
    ghost use Rattle.verdicts.specs.Blanks.{HaveNames, HaveParts};
    ghost use Rattle.verdicts.specs.Shares.{parts, amounts, sums, plus, IsFresh, each_capped};
    ghost use Rattle.verdicts.specs.Shares.{EachWithin, EachAtMost};

    /// The tally, and a share for each worker.
    #[tactic(auto, using(crate::proofs::Sums::all_fresh_pushed))]
    pub fn new(
        alloc: Global,
        blanks: Blanks,
        workers: usize,
    ) -> Result<(Tally<L>, Vec<Share<L>>), AllocError>
        requires workers { (0 < workers) × (workers ≡ L.shares) }
        requires blanks { HaveParts workers blanks
            × HaveNames L.holds L.vacuous L.fails L.disabled blanks }
        ensures one_each { IfOk result (λ made. vec_len made.1 ≡ workers) }
        ensures fresh { IfOk result (λ made. All IsFresh made.1.items) }
    {
        let mut shares = Vec::with_capacity(alloc, workers)?;
        let Blanks {
            holds,
            vacuous,
            fails,
            disabled,
        } = blanks;
        let (holds, holds_share) = opened::<HoldsOf<L>>(holds);
        let (vacuous, vacuous_share) = opened::<VacuousOf<L>>(vacuous);
        let (fails, fails_share) = opened::<FailsOf<L>>(fails);
        let (disabled, disabled_share) = opened::<DisabledOf<L>>(disabled);
        let totals = Mutex::new(Totals {
            holds,
            vacuous,
            fails,
            disabled,
        });
        let mut rest = Share {
            holds: holds_share,
            vacuous: vacuous_share,
            fails: fails_share,
            disabled: disabled_share,
        };
        for _i in 1..workers {
            shares.push_reserved(rest.part());
        }
        shares.push_reserved(rest);
        Ok((Tally { totals }, shares))
    }

    /// Adds the batch's counts to the share and to the totals, and answers the totals as it left
    /// them.
    pub fn add(&self, rt: &impl Wait, share: &mut Share<L>, batch: &Batch) -> [u64; 4]
        requires part { 0 < parts share.old }
        requires fits { EachAtMost
            (plus (amounts share.old) (counts_of batch.now.decided.items)) (2 ^ 56) }
        ensures grown { amounts share.new
            ≡ plus (amounts share.old) (counts_of batch.now.decided.items) }
        ensures parts { parts share.new ≡ parts share.old }
        ensures bound { EachWithin (amounts share.new) result }
    {
        let counts = batch_counts(batch);
        self.totals.lock(rt).add(share, counts)
    }

    /// Audits the share: whether all totals, and so its amounts, are at most 2^55.
    pub fn audits_within(&self, rt: &impl Wait, share: &mut Share<L>) -> bool
        requires part { 0 < parts share.old }
        ensures same { amounts share.new ≡ amounts share.old }
        ensures parts { parts share.new ≡ parts share.old }
        ensures within { result ≡ true → EachAtMost (amounts share.old) (2 ^ 55) }
    {
        self.totals.lock(rt).audits_within(share)
    }

    /// The totals, which are what all shares added, held at the largest number.
    #[tactic(auto, using(crate::proofs::Sums::sum_by_popped))]
    pub fn total(&self, rt: &impl Wait, mut shares: Vec<Share<L>>) -> [u64; 4]
        requires some { 0 < L.shares }
        requires all { sum_by parts shares.items ≡ L.shares }
        ensures { result ≡ each_capped (sums shares.items) }
    {
        let Some(mut all) = shares.pop() else {
            unreachable!()
        };
        while let Some(share) = shares.pop() {
            all.merge(share);
        }
        self.totals.lock(rt).total(all)
    }
}
