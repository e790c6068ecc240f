//! A schedule: which task runs next.
ghost use Rattle.std.specs.Prelude.{◌≡◌, ℕ, ◌≤◌, ◌<◌, ◌-◌, ◌^◌, ◌↔◌, min, length, drop, All, Some, None, IfSome, IfNone, IsNone, IfOk, IfErr, OnOk, OnSome, IsOkUnless, ◌⊎◌};
ghost use Rattle.task_sched.specs.InRow.{left_in_row, passed, from_running, skipped, front_count, turn_count, row_count};
ghost use Rattle.task_sched.specs.Items.{entries, entries_from, items_in, item_of, IsLeft};
ghost use Rattle.task_sched.specs.Faults.{sched_fault, item_fault};
ghost use Rattle.task_sched.specs.Grammar.{IsSchedule};
ghost use Rattle.task_sched.specs.Limits.{most_tasks, most_count};
ghost use Rattle.text_lines.specs.Pieces.{pieces};
ghost use Rattle.task_sched.specs.Pick.{pick, pick_of, in_turn, tasks_in};
ghost use Rattle.std.specs.Option.{ForSome};
ghost use Rattle.std.specs.Int.{bit_at};

use crate::MAX_ITEMS;
use crate::error::SchedError;
use crate::item::{Item, parse_item};
use crate::running::{least_running, runs};
use std::alloc::Global;
use std::marker::Model;
use text_lines::next_piece;

/// So many steps of one task, one after another.
#[derive(Clone, Copy, Debug, PartialEq, Eq)]
pub struct Row {
    pub task: u8,
    pub count: u64,
}

/// Which task runs next: by the entries that are left, and after them in turn. It is seen as these entries, and the task
/// that ran last.
#[derive(Debug, Drop)]
pub struct Schedule {
    /// The items, each with what is left of its count, which is not 0. Those before `place` are passed.
    items: Vec<Item>,
    place: usize,
    /// The task that ran last.
    last: Option<u8>,
}

impl Model for Schedule {
    ghost use Rattle.std.specs.Prelude.{◌<◌, All};
    ghost use Rattle.std.specs.Option.{ForSome};
    ghost use Rattle.task_sched.specs.Items.{entries_from, IsLeft};
    ghost use Rattle.task_sched.specs.Order.{Order};
    ghost use Rattle.task_sched.specs.Limits.{most_tasks};

    ghost Value = { Order };

    ghost view = { λ s. record { entries = entries_from s.place s.items.items; last = s.last } };

    ghost invariant = { λ s. All IsLeft s.items.items
        × ForSome s.last (λ task. task < most_tasks) };
}

impl Schedule {
    /// The schedule of this text, for a machine of so many tasks.
    ///
    /// The text is cut at its line feeds, and a carriage return at the end of a piece is dropped. An empty piece is no
    /// item. Any other is `t`, one entry of task t, or `t*n`, n entries: t is 1 or 2 decimal digits, and n is 1 to 10
    /// decimal digits with a value from 1 to 4,294,967,295. The first fault is told, with its line.
    pub fn parse(alloc: Global, bytes: &[u8], tasks: u8) -> Result<Schedule, SchedError>
        requires text { length bytes.now < 2 ^ 32 - 1 }
        requires tasks { tasks ≤ most_tasks }
        // A text without a fault is read, entry for entry.
        ensures entries { IfOk result (λ schedule. schedule.entries ≡ entries bytes.now) }
        ensures fresh { IfOk result (λ schedule. schedule.last ≡ None) }
        ensures faultless { OnOk result (sched_fault bytes.now tasks ≡ None) }
        // What is read is a schedule, and each schedule is read unless memory runs out.
        ensures schedule { OnOk result (IsSchedule bytes.now tasks) }
        ensures complete { IsSchedule bytes.now tasks → IsOkUnless result SchedError.OutOfMemory }
        // A text with a fault is refused by its first one, unless memory runs out.
        ensures fault { IfErr result (λ error.
            (error ≡ SchedError.OutOfMemory) ⊎ (sched_fault bytes.now tasks ≡ Some error)) }
    {
        let items = read_items(alloc, bytes, tasks)?;
        Ok(Schedule {
            items,
            place: 0,
            last: None,
        })
    }

    /// The task that runs next, where bit t of `running` says that task t runs. None comes exactly where no task runs,
    /// and then nothing has changed.
    ///
    /// It takes no memory. An item is passed at once, however many entries it stands for, and never met again.
    pub fn next(&mut self, running: u16) -> Option<u8>
        // The next entry that names a running task, and after the last one the tasks in turn.
        ensures pick { pick_of result self.new.entries
            ≡ pick (tasks_in running) self.old.entries self.old.last }
        ensures runs { IfSome result (λ task. bit_at running task ≡ 1) }
        ensures last { IfSome result (λ task. self.new.last ≡ Some task) }
        ensures none { IsNone result ↔ (running ≡ 0) }
        ensures unchanged { IfNone result (self.new ≡ self.old) }
    {
        let row = self.row(running)?;
        self.pass(row.task, 1);
        Some(row.task)
    }

    /// The task that runs next, and how many of its steps come in a row while the tasks of `running` are the ones that
    /// run. None comes exactly where no task runs, and then nothing has changed.
    ///
    /// With entries left the row is all of them in front that name its task, however the text writes them. After them
    /// it is one step, or `u64::MAX` where the task runs alone. The entries of tasks that do not run, before those of
    /// the row, are passed for good. The steps that are made are then told to `pass`.
    pub fn row(&mut self, running: u16) -> Option<Row>
        // One pick after another gives this task, and leaves what `pass` will leave.
        ensures in_row { IfSome result (λ row. (made : ℕ) → 1 ≤ made → made ≤ row.count
            → left_in_row (tasks_in running) row.task made self.old ≡ Some (passed row.task made self.new)) }
        ensures some { IfSome result (λ row. 1 ≤ row.count) }
        ensures count { IfSome result (λ row.
            row.count ≡ row_count (tasks_in running) row.task self.new.entries) }
        ensures skipped { OnSome result (self.new ≡ skipped (tasks_in running) self.old) }
        ensures runs { IfSome result (λ row. bit_at running row.task ≡ 1) }
        ensures below { IfSome result (λ row. row.task < most_tasks) }
        ensures none { IsNone result ↔ (running ≡ 0) }
        ensures unchanged { IfNone result (self.new ≡ self.old) }
    {
        if running == 0 {
            return None;
        }
        skip_ended(&self.items, &mut self.place, running);
        let row = if self.place < self.items.len() {
            join_items(&mut self.items, &mut self.place)
        } else {
            row_in_turn(running, self.last)
        };
        Some(row)
    }

    /// Passes so many entries, for the steps that were made of this task. It ran last.
    pub fn pass(&mut self, task: u8, made: u64)
        requires { task < most_tasks }
        ensures { self.new ≡ passed task made self.old }
    {
        pass_entries(&mut self.items, &mut self.place, made);
        self.last = Some(task);
    }
}

/// The items of a schedule's text, in order.
fn read_items(alloc: Global, bytes: &[u8], tasks: u8) -> Result<Vec<Item>, SchedError>
    requires text { length bytes.now < 2 ^ 32 - 1 }
    requires tasks { tasks ≤ most_tasks }
    ensures items { IfOk result (λ items. items.items ≡ items_in (pieces bytes.now)) }
    ensures left { IfOk result (λ items. All IsLeft items.items) }
    ensures faultless { OnOk result (sched_fault bytes.now tasks ≡ None) }
    ensures fault { IfErr result (λ error.
        (error ≡ SchedError.OutOfMemory) ⊎ (sched_fault bytes.now tasks ≡ Some error)) }
{
    let mut items = Vec::new(alloc);
    let mut line: u32 = 0;
    let mut rest = bytes;
    while let Some((piece, after)) = next_piece(rest) {
        rest = after;
        line += 1;
        if piece.is_empty() {
            continue;
        }
        let item = checked_item(piece, tasks, line, items.len())?;
        items.push(item)?;
    }
    Ok(items)
}

/// The item of this line, after so many earlier items.
fn checked_item(piece: &[u8], tasks: u8, line: u32, earlier: usize) -> Result<Item, SchedError>
    ensures item { IfOk result (λ item. item_of piece.now ≡ Some item) }
    ensures below { IfOk result (λ item. item.task < tasks) }
    ensures some { IfOk result (λ item. 1 ≤ item.count) }
    ensures faultless { OnOk result (item_fault tasks line earlier (item_of piece.now) ≡ None) }
    ensures fault { IfErr result (λ error. item_fault tasks line earlier (item_of piece.now) ≡ Some error) }
{
    let item = parse_item(piece).ok_or(SchedError::BadItem { line })?;
    if item.task >= tasks {
        return Err(SchedError::BadTask { line });
    }
    if earlier >= MAX_ITEMS {
        return Err(SchedError::TooMany { line });
    }
    Ok(item)
}

/// Passes the items of tasks that do not run, up to the first one of a task that does.
fn skip_ended(items: &[Item], place: &mut usize, running: u16)
    requires { All IsLeft items.now }
    ensures { entries_from place.new items.now
        ≡ from_running (tasks_in running) (entries_from place.old items.now) }
{
    while *place < items.len() && !runs(running, items[*place].task) {
        *place += 1;
    }
}

/// The entries in front that name one task, as far as 64 bits count them. Items of this task that follow one another
/// are joined into the last of them.
fn join_items(items: &mut [Item], place: &mut usize) -> Row
    requires here { place.old < length items.old }
    requires left { All IsLeft items.old }
    ensures left { All IsLeft items.new }
    ensures entries { entries_from place.new items.new ≡ entries_from place.old items.old }
    ensures below { result.task < most_tasks }
    ensures some { 1 ≤ result.count }
    ensures count { result.count ≡ min most_count (front_count result.task (entries_from place.old items.old)) }
{
    let Item { task, mut count } = items[*place];
    while *place + 1 < items.len() && items[*place + 1].task == task {
        let Some(joined) = count.checked_add(items[*place + 1].count) else {
            return Row {
                task,
                count: u64::MAX,
            };
        };
        count = joined;
        *place += 1;
        items[*place].count = count;
    }
    Row { task, count }
}

/// Passes so many entries, or all where there are no more.
fn pass_entries(items: &mut [Item], place: &mut usize, mut count: u64)
    requires { All IsLeft items.old }
    ensures left { All IsLeft items.new }
    ensures passed { entries_from place.new items.new ≡ drop count (entries_from place.old items.old) }
{
    while *place < items.len() {
        let item = &mut items[*place];
        if count < item.count {
            item.count -= count;
            return;
        }
        count -= item.count;
        *place += 1;
    }
}

/// The row of the task whose turn it is: one step, or without an end where no other task runs.
fn row_in_turn(running: u16, last: Option<u8>) -> Row
    requires some { 0 < running }
    requires below { ForSome last (λ task. task < most_tasks) }
    ensures turn { in_turn (tasks_in running) last ≡ Some result.task }
    ensures count { result.count ≡ turn_count (tasks_in running) }
    ensures below { result.task < most_tasks }
    ensures runs { bit_at running result.task ≡ 1 }
{
    let task = task_in_turn(running, last);
    let is_alone = running == 1 << task;
    let count = if is_alone { u64::MAX } else { 1 };
    Row { task, count }
}

/// The least running task above the one that ran last, or the least of all.
fn task_in_turn(running: u16, last: Option<u8>) -> u8
    requires some { 0 < running }
    requires below { ForSome last (λ task. task < most_tasks) }
    ensures turn { in_turn (tasks_in running) last ≡ Some result }
    ensures below { result < most_tasks }
    ensures runs { bit_at running result ≡ 1 }
{
    let above = last.and_then(|task| least_running(running, task + 1));
    above.or_else(|| least_running(running, 0)).unwrap()
}
