//! The table of instructions, by which sources are read and written.
ghost use Rattle.std.specs.Prelude.{◌≡◌, ◌≤◌, map, find, bytes_eq, option_map, ◌==◌};
ghost use Rattle.hic_asm.specs.Table.{form_of, form_named, form_with, operand_count, register_words, number_words};

use NumberField::{NoNumber, Number, Signed, Target};

/// How a register field of an instruction is written.
#[derive(Clone, Copy, Debug, PartialEq, Eq)]
pub(crate) enum RegisterField {
    /// Not at all: it is 0.
    Unused,
    /// `r0` to `r7`.
    Register,
    /// `i0` to `i3`.
    Iterator,
}

/// How the field imm of an instruction is written.
#[derive(Clone, Copy, Debug, PartialEq, Eq)]
pub(crate) enum NumberField {
    /// Not at all: it is 0.
    NoNumber,
    /// A number below 2^32.
    Number,
    /// A decimal number from -2^31 to 2^31 - 1.
    Signed,
    /// A number below 2^32, or a label.
    Target,
}

/// An instruction's words, as its bytes stand in its encoding: the mnemonic, the opcode, and how each of the fields a,
/// b, c and imm is written. The words of the used fields stand in this order.
#[derive(Debug)]
pub(crate) struct Form(
    pub(crate) &'static str,
    pub(crate) u8,
    pub(crate) RegisterField,
    pub(crate) RegisterField,
    pub(crate) RegisterField,
    pub(crate) NumberField,
);

impl Form {
    /// How many words stand after the mnemonic.
    pub(crate) fn operand_count(&self) -> usize
        ensures { result ≡ operand_count (form_of self.now) }
    {
        let Form(_, _, a, b, c, imm) = *self;
        a.word_count() + b.word_count() + c.word_count() + imm.word_count()
    }
}

impl RegisterField {
    /// How many words the field takes: 0 or 1.
    fn word_count(self) -> usize
        ensures count { result ≡ register_words self }
        ensures bound { result ≤ 1 }
    {
        match self {
            RegisterField::Unused => 0,
            RegisterField::Register | RegisterField::Iterator => 1,
        }
    }
}

impl NumberField {
    /// How many words the field takes: 0 or 1.
    fn word_count(self) -> usize
        ensures count { result ≡ number_words self }
        ensures bound { result ≤ 1 }
    {
        match self {
            NumberField::NoNumber => 0,
            NumberField::Number | NumberField::Signed | NumberField::Target => 1,
        }
    }
}

/// The form of the instruction with this mnemonic.
#[tactic(auto, unfolding(crate::specs::Table::form_named))]
pub(crate) fn form_named(mnemonic: &[u8]) -> Option<&'static Form>
    ensures { option_map (λ form. form_of form.now) result ≡ form_named mnemonic.now }
{
    named(&FORMS, mnemonic)
}

/// The form of the instruction with this opcode.
#[tactic(auto, unfolding(crate::specs::Table::form_with))]
pub(crate) fn form_with(opcode: u8) -> Option<&'static Form>
    ensures { option_map (λ form. form_of form.now) result ≡ form_with opcode }
{
    with_opcode(&FORMS, opcode)
}

/// The first of these forms with this mnemonic.
fn named<'a>(table: &'a [Form], mnemonic: &[u8]) -> Option<&'a Form>
    ensures { option_map (λ form. form_of form.now) result
        ≡ find (λ form. bytes_eq form.mnemonic mnemonic.now) (map form_of table.now) }
{
    table.iter().find(|form| form.0.as_bytes() == mnemonic)
}

/// The first of these forms with this opcode.
fn with_opcode(table: &[Form], opcode: u8) -> Option<&Form>
    ensures { option_map (λ form. form_of form.now) result
        ≡ find (λ form. form.opcode == opcode) (map form_of table.now) }
{
    table.iter().find(|form| form.1 == opcode)
}

/// Fields that are not used, registers and iterator registers.
const O: RegisterField = RegisterField::Unused;

const R: RegisterField = RegisterField::Register;

const I: RegisterField = RegisterField::Iterator;

/// The table, by opcode.
static FORMS: [Form; 40] = [
    Form("halt", 0x01, O, O, O, NoNumber),
    Form("li", 0x02, R, O, O, Number),
    Form("lih", 0x03, R, O, O, Number),
    Form("mov", 0x04, R, R, O, NoNumber),
    Form("addi", 0x05, R, R, O, Signed),
    Form("add", 0x06, R, R, R, NoNumber),
    Form("sub", 0x07, R, R, R, NoNumber),
    Form("mul", 0x08, R, R, R, NoNumber),
    Form("div", 0x09, R, R, R, NoNumber),
    Form("rem", 0x0a, R, R, R, NoNumber),
    Form("and", 0x0b, R, R, R, NoNumber),
    Form("or", 0x0c, R, R, R, NoNumber),
    Form("xor", 0x0d, R, R, R, NoNumber),
    Form("shl", 0x0e, R, R, R, NoNumber),
    Form("shr", 0x0f, R, R, R, NoNumber),
    Form("ltu", 0x10, R, R, R, NoNumber),
    Form("eq", 0x11, R, R, R, NoNumber),
    Form("isref", 0x12, R, R, O, NoNumber),
    Form("jmp", 0x13, O, O, O, Target),
    Form("jz", 0x14, R, O, O, Target),
    Form("jnz", 0x15, R, O, O, Target),
    Form("getb", 0x16, R, O, O, NoNumber),
    Form("putb", 0x17, R, O, O, NoNumber),
    Form("putn", 0x18, R, O, O, NoNumber),
    Form("task", 0x19, R, O, O, NoNumber),
    Form("open", 0x20, I, R, O, NoNumber),
    Form("openr", 0x21, I, R, O, NoNumber),
    Form("seek", 0x22, I, R, O, NoNumber),
    Form("pos", 0x23, R, I, O, NoNumber),
    Form("load", 0x24, R, I, O, NoNumber),
    Form("store", 0x25, I, R, O, NoNumber),
    Form("find", 0x26, R, I, O, NoNumber),
    Form("next", 0x27, R, I, O, NoNumber),
    Form("commit", 0x28, R, I, O, NoNumber),
    Form("abort", 0x29, I, O, O, NoNumber),
    Form("close", 0x2a, I, O, O, NoNumber),
    Form("root", 0x2b, R, R, O, NoNumber),
    Form("snap", 0x2c, R, I, O, NoNumber),
    Form("seal", 0x2d, R, I, O, NoNumber),
    Form("mcas", 0x2e, R, R, R, NoNumber),
];
