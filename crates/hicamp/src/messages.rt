// The messages of the error side.
ghost use Rattle.std.specs.Prelude.{◌≡◌, ◌≤◌, ◌+◌, ◌++◌, [], ◌∷◌, length};
ghost use Rattle.arrayvec.specs.ArrayVec.{array_vec_len};
ghost use Rattle.hicamp.specs.Messages.{trap_message, object_text, schedule_text, source_text, count_name, message};

use arrayvec::ArrayVec;
use hic_asm::AsmError;
use hic_object::{CountName, ObjectError};
use hic_plain::Trap;
use itoa::Buffer;
use task_sched::SchedError;

/// A message with its line feed. The longest is that of the trap `detached` with ten digits of pc.
pub type Message = ArrayVec<u8, 48>;

/// How a trap is told, with its place.
pub fn trap_message(trap: Trap, task: u8, pc: u32) -> Message
    ensures { result.items ≡ trap_message trap task pc }
{
    let mut digits = Buffer::new();
    let mut text = ArrayVec::new();
    append(&mut text, "trap ");
    append(&mut text, trap.name());
    append(&mut text, " task ");
    append(&mut text, digits.format(task));
    append(&mut text, " pc ");
    append(&mut text, digits.format(pc));
    append(&mut text, "\n");
    text
}

/// How a fault in an object file is told, with its place.
pub fn fault_message(fault: ObjectError) -> Message
    ensures { result.items ≡ message (object_text fault) }
{
    let mut digits = Buffer::new();
    match fault {
        ObjectError::Magic => message_of("object magic", ""),
        ObjectError::Version => message_of("object version", ""),
        ObjectError::Count { at } => message_of("object count ", name_of_count(at)),
        ObjectError::Entry { task } => message_of("object entry ", digits.format(task)),
        ObjectError::BadKind { segment } => message_of("object kind ", digits.format(segment)),
        ObjectError::BadData { index } => message_of("object data ", digits.format(index)),
        ObjectError::Code { index } => message_of("object code ", digits.format(index)),
        ObjectError::Short => message_of("object short", ""),
        ObjectError::Long => message_of("object long", ""),
        ObjectError::OutOfMemory => message_of("", ""),
    }
}

/// How a fault in a schedule is told, with its line.
pub fn schedule_message(fault: SchedError) -> Message
    ensures { result.items ≡ message (schedule_text fault) }
{
    let mut digits = Buffer::new();
    match fault {
        SchedError::BadItem { line } => message_of("schedule item line ", digits.format(line)),
        SchedError::BadTask { line } => message_of("schedule task line ", digits.format(line)),
        SchedError::TooMany { line } => message_of("schedule many line ", digits.format(line)),
        SchedError::OutOfMemory => message_of("", ""),
    }
}

/// How the first fault in a source is told, with its line.
pub fn source_message(fault: AsmError) -> Message
    ensures { result.items ≡ message (source_text fault) }
{
    let mut digits = Buffer::new();
    match fault {
        AsmError::Word { line } => message_of("source word line ", digits.format(line)),
        AsmError::Operand { line } => message_of("source operand line ", digits.format(line)),
        AsmError::Register { line } => message_of("source register line ", digits.format(line)),
        AsmError::Number { line } => message_of("source number line ", digits.format(line)),
        AsmError::LabelTwice { line } => message_of("source twice line ", digits.format(line)),
        AsmError::LabelMissing { line } => message_of("source missing line ", digits.format(line)),
        AsmError::Order { line } => message_of("source order line ", digits.format(line)),
        AsmError::Limit { line } => message_of("source limit line ", digits.format(line)),
        AsmError::NotText { line } => message_of("source text line ", digits.format(line)),
        AsmError::OutOfMemory => message_of("", ""),
    }
}

/// The name of a count in an object file.
fn name_of_count(at: CountName) -> &'static str
    ensures name { result.now ≡ count_name at }
    ensures short { length result.now ≤ 8 }
{
    match at {
        CountName::Tasks => "tasks",
        CountName::Segments => "segments",
        CountName::Code => "code",
        CountName::Words => "words",
    }
}

/// The message of these two texts.
pub fn message_of(first: &str, second: &str) -> Message
    requires { (length first.now ≤ 24) × (length second.now ≤ 20) }
    ensures { result.items ≡ message (first.now ++ second.now) }
{
    let mut text = ArrayVec::new();
    append(&mut text, first);
    append(&mut text, second);
    append(&mut text, "\n");
    text
}

/// Puts a text behind what is there, which must have a place.
fn append(text: &mut Message, more: &str)
    requires { array_vec_len text.old + length more.now ≤ 48 }
    ensures items { text.new.items ≡ text.old.items ++ more.now }
    ensures len { array_vec_len text.new ≡ array_vec_len text.old + length more.now }
{
    text.try_extend_from_slice(more.as_bytes()).unwrap();
}
