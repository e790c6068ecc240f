// What is told of a run.
ghost use Rattle.std.specs.Prelude.{◌≡◌, ◌≤◌, ◌⊎◌, [], IsOk, IsTrue, OnErr, OnOk, length};
ghost use Rattle.hic_io.specs.Calls.{Wrote};
ghost use Rattle.hic_io.specs.Output.{WrotePart};
ghost use Rattle.hic_io.specs.declared.writing.Side.TheVariants.{Output};
ghost use Rattle.hic_list.specs.UnderWay.{IsListing, text_of};
ghost use Rattle.hic_plain.specs.declared.turn.End.{End};
ghost use Rattle.hicamp.specs.Asked.{answer_by, answer_bytes, answer_lines, answer_run, answer_summary};
ghost use Rattle.hicamp.specs.Running.{run_by};
ghost use Rattle.hicamp.specs.Outcome.{Fulfils, IsRunStatus, IsUnbroken};

use crate::report::{report_end, write_bytes};
use crate::running::{count_run, drop_run, write_run};
use crate::status::Status;
use crate::summary::summary_of;
use hic_io::{Failed, Host, OutBuf};
use hic_list::{Listing, TextLine};
use hic_machine::Machine;
use hic_word::WIDTH;
use line_mem::{LineMem, Steps};
use std::alloc::Global;
use std::sync::ledger::Ledger;
use task_sched::Schedule;

/// What is told of a run.
#[derive(Clone, Copy, Debug, PartialEq, Eq)]
pub(crate) enum Telling {
    /// What it writes, and how it ended.
    Output,
    /// The lines that it leaves, in place of what it writes.
    Listing,
    /// How it ended, how much it did, and how many lines it leaves.
    Summary,
}

/// Runs a machine by a schedule, for so many steps at most, and tells of it.
pub(crate) fn tell<H: Host, S: LineMem<WIDTH, Counts = L>, L: Ledger>(
    alloc: Global,
    telling: Telling,
    host: &mut H,
    machine: &mut Machine<S>,
    schedule: Schedule,
    most: u64,
    steps: &mut Steps<L>,
) -> Status
    ensures fulfils { Fulfils (H.state host.old) (H.state host.new) result (answer_by telling (run_by machine.old.plain schedule most)) }
    ensures last { IsUnbroken result → machine.new.plain ≡ (run_by machine.old.plain schedule most).last }
    ensures run { IsRunStatus result }
{
    match telling {
        Telling::Output => tell_output(host, machine, schedule, most, steps),
        Telling::Listing => tell_lines(alloc, host, machine, schedule, most, steps),
        Telling::Summary => tell_summary(alloc, host, machine, schedule, most, steps),
    }
}

/// Writes what a run prints, and tells how it ended.
fn tell_output<H: Host, S: LineMem<WIDTH, Counts = L>, L: Ledger>(
    host: &mut H,
    machine: &mut Machine<S>,
    schedule: Schedule,
    most: u64,
    steps: &mut Steps<L>,
) -> Status
    ensures fulfils { Fulfils (H.state host.old) (H.state host.new) result (answer_run (run_by machine.old.plain schedule most)) }
    ensures last { IsUnbroken result → machine.new.plain ≡ (run_by machine.old.plain schedule most).last }
    ensures run { IsRunStatus result }
{
    let mut out = OutBuf::make();
    let end = match write_run(host, &mut out, machine, schedule, most, steps) {
        Ok(end) => end,
        Err(_) => return Status::WriteFault,
    };
    if let Err(_) = out.flush(host) {
        return Status::WriteFault;
    }
    report_end(host, end)
}

/// Writes the listing of what a run leaves.
fn tell_lines<H: Host, S: LineMem<WIDTH, Counts = L>, L: Ledger>(
    alloc: Global,
    host: &mut H,
    machine: &mut Machine<S>,
    schedule: Schedule,
    most: u64,
    steps: &mut Steps<L>,
) -> Status
    ensures fulfils { Fulfils (H.state host.old) (H.state host.new) result (answer_lines (run_by machine.old.plain schedule most)) }
    ensures last { machine.new.plain ≡ (run_by machine.old.plain schedule most).last }
    ensures run { IsRunStatus result }
{
    let end = drop_run(machine, schedule, most, steps);
    match Listing::make(alloc, machine, end, steps) {
        Ok(listing) => write_listing(host, machine, &listing, steps),
        Err(_) => Status::NoMemory,
    }
}

/// Writes a listing, and gives the status.
fn write_listing<H: Host, S: LineMem<WIDTH, Counts = L>, L: Ledger>(
    host: &mut H,
    machine: &Machine<S>,
    listing: &Listing,
    steps: &mut Steps<L>,
) -> Status
    requires { (end : End) × IsListing machine.now.memory machine.now.plain end listing.now }
    ensures fulfils { Fulfils (H.state host.old) (H.state host.new) result (answer_bytes (text_of machine.now.plain listing.now)) }
    ensures status { (result ≡ Status.Done) ⊎ (result ≡ Status.WriteFault) }
{
    match put_listing(host, machine, listing, steps) {
        Ok(()) => Status::Done,
        Err(_) => Status::WriteFault,
    }
}

/// Puts a listing on the output line by line, so that its text is never there as a whole. It takes no memory.
fn put_listing<H: Host, S: LineMem<WIDTH, Counts = L>, L: Ledger>(
    host: &mut H,
    machine: &Machine<S>,
    listing: &Listing,
    steps: &mut Steps<L>,
) -> Result<(), Failed>
    requires { (end : End) × IsListing machine.now.memory machine.now.plain end listing.now }
    ensures ok { OnOk result (Wrote (H.state host.old) (H.state host.new) (text_of machine.now.plain listing.now) []) }
    ensures failed { OnErr result (WrotePart Output (H.state host.old) (H.state host.new) (text_of machine.now.plain listing.now)) }
    ensures sound { IsTrue (H.state host.old).sound
        → length (text_of machine.now.plain listing.now) ≤ (H.state host.old).room → IsOk result }
{
    let mut out = OutBuf::make();
    out.put(host, listing.head())?;
    let mut line = TextLine::new();
    for number in 0..listing.lines() {
        line.clear();
        listing.put_line(&mut line, machine, number, steps);
        out.put(host, line.as_slice())?;
    }
    out.flush(host)
}

/// Writes the summary of a run.
fn tell_summary<H: Host, S: LineMem<WIDTH, Counts = L>, L: Ledger>(
    alloc: Global,
    host: &mut H,
    machine: &mut Machine<S>,
    schedule: Schedule,
    most: u64,
    steps: &mut Steps<L>,
) -> Status
    ensures fulfils { Fulfils (H.state host.old) (H.state host.new) result (answer_summary (run_by machine.old.plain schedule most)) }
    ensures last { machine.new.plain ≡ (run_by machine.old.plain schedule most).last }
    ensures run { IsRunStatus result }
{
    let counted = count_run(machine, schedule, most, steps);
    match summary_of(alloc, &counted, machine) {
        Ok(text) => write_bytes(host, text.as_slice()),
        Err(_) => Status::NoMemory,
    }
}
