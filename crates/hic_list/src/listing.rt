//! The listing.

ghost use Rattle.std.specs.Prelude.{◌≡◌, ◌+◌, ◌*◌, ◌<◌, ◌++◌, [], IfOk, OnOk, length};
ghost use Rattle.hic_word.specs.Lines.{lines};
ghost use Rattle.hic_plain.specs.Machine.{held, width_of};
ghost use Rattle.hic_list.specs.Listing.{end_line, listing, room_line};
ghost use Rattle.hic_list.specs.UnderWay.{IsListing, lines_from, segments_text};
ghost use Rattle.hic_list.specs.Walks.{AllNumbered};

use crate::lines::{end_line, put_line, room_line, segment_line};
use crate::numbers::Numbers;
use crate::walk::visit;
use crate::writing::TextLine;
use hic_machine::Machine;
use hic_plain::End;
use hic_word::WIDTH;
use line_mem::{LineMem, Steps};
use std::alloc::{AllocError, Global};
use std::marker::Model;
use std::sync::ledger::Ledger;

/// A listing that is written line by line, which takes all its memory when it is made.
///
/// It is seen as its first lines, which are at hand, and as the ids of the lines of the memory in the order of their
/// numbers. So it takes 8 bytes for each line, 4 for each id up to the greatest that has none, and 4 for each of the ids
/// that wait while it is made, at most 3 for each line and one more; while they grow, vectors may take twice that.
#[derive(Drop)]
pub struct Listing {
    head: Vec<u8>,
    numbers: Numbers,
}

impl Model for Listing {
    ghost use Rattle.hic_list.specs.UnderWay.{UnderWay};

    ghost Value = { UnderWay };

    ghost view = { λ l. record { head = l.head.items; ids = l.numbers } };
}

impl Listing {
    /// The listing of a machine and of how its run ended: the end, the number of lines, a line for each segment and one
    /// for each line of the memory.
    ///
    /// Lines are numbered at their first visit, in the order of the held arrays: an array's root first, then what its
    /// words name, in order. Each line is read once to visit it. It takes no recursion, so lines that name one another
    /// may be as many as there are.
    pub fn make<S: LineMem<WIDTH, Counts = L>, L: Ledger>(
        alloc: Global,
        machine: &Machine<S>,
        end: End,
        steps: &mut Steps<L>,
    ) -> Result<Listing, AllocError>
        ensures listing { IfOk result (IsListing machine.now.memory machine.now.plain end) }
        ensures looks { IfOk result (λ it. steps.new ≡ steps.old + length it.ids) }
    {
        let numbers = number_lines(alloc, machine, steps)?;
        let head = head_of(alloc, &numbers, machine, end)?;
        Ok(Listing { head, numbers })
    }

    /// The first lines: the end, the number of lines, and a line for each segment.
    pub fn head(&self) -> &[u8]
        ensures { result.now ≡ self.now.head }
    {
        &self.head
    }

    /// The number of lines of the memory, each of which has a line of the listing.
    pub fn lines(&self) -> usize
        ensures { result ≡ length self.now.ids }
    {
        self.numbers.ids().len()
    }

    /// Puts the line of the listing together that is of the line of the memory with this number, which is read once.
    pub fn put_line<S: LineMem<WIDTH, Counts = L>, L: Ledger>(
        &self,
        line: &mut TextLine,
        machine: &Machine<S>,
        number: usize,
        steps: &mut Steps<L>,
    )
        requires listing { AllNumbered machine.now.memory (held machine.now.plain) self.now.ids }
        requires number { number < length self.now.ids }
        requires empty { line.old.items ≡ [] }
        ensures line { lines_from machine.now.plain number ≡ line.new.items ++ lines_from machine.now.plain (number + 1) }
        ensures looks { steps.new ≡ steps.old + 1 }
    {
        let mem = machine.lines();
        let id = self.numbers.ids()[number];
        let count = mem.count(id);
        let words = mem.line(id, steps);
        put_line(line, &self.numbers, number as u64, count, &words.w);
    }
}

/// The whole text of a listing. Each line of the memory is read twice, once to visit it and once to write it.
pub fn list<S: LineMem<WIDTH, Counts = L>, L: Ledger>(
    alloc: Global,
    machine: &Machine<S>,
    end: End,
    steps: &mut Steps<L>,
) -> Result<Vec<u8>, AllocError>
    ensures listing { IfOk result (λ text. text.items ≡ listing machine.now.plain end) }
    ensures looks { OnOk result (steps.new
        ≡ steps.old + 2 * length (lines (width_of machine.now.plain) (held machine.now.plain))) }
{
    let listing = Listing::make(alloc, machine, end, steps)?;
    let mut text = listing.head().to_vec(alloc)?;
    let mut line = TextLine::new();
    for number in 0..listing.lines() {
        line.clear();
        listing.put_line(&mut line, machine, number, steps);
        text.extend_from_slice(line.as_slice())?;
    }
    Ok(text)
}

/// The numbers of all lines.
fn number_lines<S: LineMem<WIDTH, Counts = L>, L: Ledger>(
    alloc: Global,
    machine: &Machine<S>,
    steps: &mut Steps<L>,
) -> Result<Numbers, AllocError>
    ensures numbered { IfOk result (λ numbers. AllNumbered machine.now.memory (held machine.now.plain) numbers) }
    ensures looks { IfOk result (λ numbers. steps.new ≡ steps.old + length numbers) }
{
    let mem = machine.lines();
    let mut numbers = Numbers::none(alloc);
    let mut waiting = Vec::new(alloc);
    let mut k = 0;
    while let Some(root) = machine.held_at(k) {
        visit(&mut numbers, &mut waiting, mem, root, steps)?;
        k += 1;
    }
    Ok(numbers)
}

/// The first lines of a listing: the end, the number of lines, and a line for each segment.
fn head_of<S: LineMem<WIDTH>>(
    alloc: Global,
    numbers: &Numbers,
    machine: &Machine<S>,
    end: End,
) -> Result<Vec<u8>, AllocError>
    requires { AllNumbered machine.now.memory (held machine.now.plain) numbers.now }
    ensures { IfOk result (λ head. head.items ≡ end_line end
        ++ (room_line (length (lines (width_of machine.now.plain) (held machine.now.plain))) machine.now.plain.capacity
        ++ segments_text machine.now.plain)) }
{
    let mut head = Vec::new(alloc);
    head.extend_from_slice(end_line(end).as_slice())?;
    head.extend_from_slice(room_line(machine.lines()).as_slice())?;
    put_segments(&mut head, numbers, machine)?;
    Ok(head)
}

/// Puts a line for each segment behind a text.
fn put_segments<S: LineMem<WIDTH>>(
    text: &mut Vec<u8>,
    numbers: &Numbers,
    machine: &Machine<S>,
) -> Result<(), AllocError>
    requires { AllNumbered machine.now.memory (held machine.now.plain) numbers.now }
    ensures { OnOk result (text.new.items ≡ text.old.items ++ segments_text machine.now.plain) }
{
    for segment in 0..machine.segments() {
        let root = machine.held_at(u32::from(segment)).unwrap();
        text.extend_from_slice(segment_line(numbers, segment, root).as_slice())?;
    }
    Ok(())
}
