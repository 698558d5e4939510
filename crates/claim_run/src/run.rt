//! The command `run`: it settles the claims of providers' files by a plan's tables, and writes
//! their remittance.

ghost use Rattle.std.specs.Prelude.{◌≡◌, ◌≢◌, IfOk, IfErr, IfSome, OnOk};
ghost use Rattle.fixpoint.specs.Out.{writer_of, has_failed};
ghost use Rattle.crew.specs.Workers.{IsWorkerCount};
ghost use Rattle.dtable.specs.PlanFile.{IsPlanText};
ghost use Rattle.evaluation.specs.Stop.{WritesText};
ghost use Rattle.journal.specs.declared.order.Order.TheVariants.{Any};
ghost use Rattle.orders.specs.Remittance.{IsOrderedRemittanceOf};
ghost use Rattle.orders.specs.RunTexts.{IsOrderedRemittance};
ghost use Rattle.orders.specs.Stop.{failed_after};
ghost use Rattle.claim_run.specs.RunText.{IsClosedRemittance, IsCountedRemittance, IsNotedRemittance, IsRemittance, IsRemittanceOf, WritesClosed, WritesCounted, WritesNoted, run_texts};
ghost use Rattle.claim_run.specs.RunStop.{IsRunReason, StopsRemittance, WritesRemittanceUntil};

use crate::counting::Counting;
use claim_gate::{Order, Terms, claim_lists_exist};
use dtable::read_plan;
use fixpoint::Out;
use orders::Stop;
use remit::write_report_by_threads;
use std::io::Write;
use std::sync::Wait;
use std::sync::atomic::AtomicU64;
use std::thread::Threads;
use tables::Plan;

/// The input of a run.
#[derive(Clone, Copy)]
pub struct RunInput<'a> {
    /// The text of the plan.
    pub plan: &'a [u8],
    /// The text of the opening balances. Without it, all accumulators begin at zero.
    pub balances: Option<&'a [u8]>,
    /// The texts of the providers' files. The first of them is the file of provider 1.
    pub files: &'a [&'a [u8]],
    /// The greatest number of claims that are accepted, or `None` for no limit.
    pub cutoff: Option<u64>,
    /// The number of worker threads, from 1 to `WORKERS_LIMIT`. The caller's thread decides claims
    /// as well.
    pub workers: usize,
}

/// Settles the claims of the files, and writes the remittance. The plan is checked first, then the
/// terms of the run, then the number of workers.
///
/// For all plan, balance and provider texts, every cutoff and number of workers, a run that ends unrefused writes the
/// remittance of one journal: each provider's accepted claims are the first of its file, once each and in its order, as
/// many in all as the cutoff admits, and each family's claims are decided in order of acceptance, each by the tables'
/// value at the accumulators left before it.
///
/// If the plan keeps accumulators by benefit year, those left before a claim are those that the
/// earlier claims of the year of its service have left.
pub fn do_run<R: Threads + Wait + Sync + AllocGlobal, W: Write>(
    rt: &R,
    input: RunInput,
    out: &mut Out<W>,
) -> Result<(), Stop>
    ensures written { OnOk result (WritesText (IsRemittance (run_texts input.entry))
        (W.contents (writer_of out.old)) (W.contents (writer_of out.new))) }
    ensures workers { OnOk result (IsWorkerCount input.entry.workers) }
    ensures reason { IfErr result (IsRunReason (run_texts input.entry) input.entry.workers) }

    // If memory runs out, the writer has received some first bytes of the remittance, or none.
    ensures stopped { IfErr result (WritesRemittanceUntil (run_texts input.entry)
        (W.contents (writer_of out.old)) (W.contents (writer_of out.new))) }

    // The writer has failed after a write fault, and otherwise only if it had failed before.
    ensures ok_failed { OnOk result (has_failed out.new ≡ has_failed out.old) }
    ensures failed { IfErr result (λ stop.
        has_failed out.new ≡ failed_after (has_failed out.old) stop) }
{
    do_counted_run(rt, input, Order::Any, out, &mut Counting::nothing())
}

/// Settles the claims as `do_run` does, and accepts them in the given order. If this is not
/// `Order::Any`, the texts, the cutoff and the order determine the remittance
/// (`texts_have_one_remittance`), whatever the number of workers.
///
/// The records of the remittance are counted if `counting` requests it, the closing balances are
/// added up, and the records that need a person are noted. Each is missing if memory runs out for it,
/// which is not an error.
pub fn do_counted_run<R: Threads + Wait + Sync + AllocGlobal, W: Write>(
    rt: &R,
    input: RunInput,
    order: Order,
    out: &mut Out<W>,
    counting: &mut Counting,
) -> Result<(), Stop>
    ensures written { OnOk result (WritesText (IsRemittance (run_texts input.entry))
        (W.contents (writer_of out.old)) (W.contents (writer_of out.new))) }
    ensures ordered { OnOk result (order ≢ Any
        → WritesText (IsOrderedRemittance order (run_texts input.entry))
        (W.contents (writer_of out.old)) (W.contents (writer_of out.new))) }
    ensures counted { OnOk result (IfSome counting.new.counts
        (IsCountedRemittance (run_texts input.entry)
        (W.contents (writer_of out.old)) (W.contents (writer_of out.new)))) }
    ensures closed { OnOk result (IfSome counting.new.closing (λ closing.
        IsClosedRemittance (run_texts input.entry)
        (W.contents (writer_of out.old)) (W.contents (writer_of out.new)) closing.items)) }
    ensures noted { OnOk result (IfSome counting.new.notes (λ notes.
        IsNotedRemittance (run_texts input.entry)
        (W.contents (writer_of out.old)) (W.contents (writer_of out.new)) notes.items)) }
    ensures workers { OnOk result (IsWorkerCount input.entry.workers) }
    ensures reason { IfErr result (IsRunReason (run_texts input.entry) input.entry.workers) }
    ensures stopped { IfErr result (WritesRemittanceUntil (run_texts input.entry)
        (W.contents (writer_of out.old)) (W.contents (writer_of out.new))) }
    ensures ok_failed { OnOk result (has_failed out.new ≡ has_failed out.old) }
    ensures failed { IfErr result (λ stop.
        has_failed out.new ≡ failed_after (has_failed out.old) stop) }
{
    let plan = read_plan(rt.alloc(), input.plan)?;
    let done = run_plan(rt, &plan, input, order, out, counting);
    drop(plan);
    done
}

// Continues `do_counted_run` after the plan is read.
fn run_plan<R: Threads + Wait + Sync + AllocGlobal, W: Write>(
    rt: &R,
    plan: &Plan,
    input: RunInput,
    order: Order,
    out: &mut Out<W>,
    counting: &mut Counting,
) -> Result<(), Stop>
    requires spelled { IsPlanText (run_texts input).plan plan.now }
    ensures written { OnOk result (WritesText (IsRemittance (run_texts input.entry))
        (W.contents (writer_of out.old)) (W.contents (writer_of out.new))) }
    ensures ordered { OnOk result (order ≢ Any
        → WritesText (IsOrderedRemittance order (run_texts input.entry))
        (W.contents (writer_of out.old)) (W.contents (writer_of out.new))) }
    ensures counted { OnOk result (IfSome counting.new.counts
        (IsCountedRemittance (run_texts input.entry)
        (W.contents (writer_of out.old)) (W.contents (writer_of out.new)))) }
    ensures closed { OnOk result (IfSome counting.new.closing (λ closing.
        IsClosedRemittance (run_texts input.entry)
        (W.contents (writer_of out.old)) (W.contents (writer_of out.new)) closing.items)) }
    ensures noted { OnOk result (IfSome counting.new.notes (λ notes.
        IsNotedRemittance (run_texts input.entry)
        (W.contents (writer_of out.old)) (W.contents (writer_of out.new)) notes.items)) }
    ensures workers { OnOk result (IsWorkerCount input.entry.workers) }
    ensures reason { IfErr result (IsRunReason (run_texts input.entry) input.entry.workers) }
    ensures stopped { IfErr result (WritesRemittanceUntil (run_texts input.entry)
        (W.contents (writer_of out.old)) (W.contents (writer_of out.new))) }
    ensures ok_failed { OnOk result (has_failed out.new ≡ has_failed out.old) }
    ensures failed { IfErr result (λ stop.
        has_failed out.new ≡ failed_after (has_failed out.old) stop) }
{
    let terms = Terms::with_order(
        rt.alloc(),
        plan,
        input.files,
        input.balances,
        input.cutoff,
        order,
    )?;
    let done = write_remittance(rt, &terms, input.workers, out, counting);
    counting.release(terms);
    done
}

// Runs the claims with this number of workers, and streams the remittance to the writer.
fn write_remittance<R: Threads + Wait + Sync + AllocGlobal, W: Write>(
    rt: &R,
    terms: &Terms,
    workers: usize,
    out: &mut Out<W>,
    counting: &mut Counting,
) -> Result<(), Stop>
    ensures written { OnOk result (WritesText (IsRemittanceOf terms.now)
        (W.contents (writer_of out.old)) (W.contents (writer_of out.new))) }
    ensures ordered { OnOk result (terms.now.order ≢ Any
        → WritesText (IsOrderedRemittanceOf terms.now.order terms.now)
        (W.contents (writer_of out.old)) (W.contents (writer_of out.new))) }
    ensures counted { OnOk result (IfSome counting.new.counts (WritesCounted terms.now
        (W.contents (writer_of out.old)) (W.contents (writer_of out.new)))) }
    ensures closed { OnOk result (IfSome counting.new.closing (λ closing.
        WritesClosed terms.now
        (W.contents (writer_of out.old)) (W.contents (writer_of out.new)) closing.items)) }
    ensures noted { OnOk result (IfSome counting.new.notes (λ notes.
        WritesNoted terms.now
        (W.contents (writer_of out.old)) (W.contents (writer_of out.new)) notes.items)) }
    ensures workers { OnOk result (IsWorkerCount workers) }
    ensures stopped { IfErr result (StopsRemittance terms.now workers
        (W.contents (writer_of out.old)) (W.contents (writer_of out.new))) }
    ensures ok_failed { OnOk result (has_failed out.new ≡ has_failed out.old) }
    ensures failed { IfErr result (λ stop.
        has_failed out.new ≡ failed_after (has_failed out.old) stop) }
{
    // proof: each text has a list of claims, so a promise about every such list is not vacuous
    claim_lists_exist(terms);
    let unwatched = AtomicU64::new(0);
    let decided = counting.decided_count().unwrap_or(&unwatched);
    let batch = crew::run_watched(rt, rt.alloc(), terms, workers, decided)?;
    write_report_by_threads(rt, rt.alloc(), terms, &batch, out)?;
    counting.add_up(rt.alloc(), terms, &batch);
    counting.count(rt.alloc(), terms, &batch);
    counting.close(rt.alloc(), terms, &batch);
    counting.note(rt.alloc(), terms, &batch);
    counting.release(batch);
    Ok(())
}
