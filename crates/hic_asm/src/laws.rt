//! Laws of assembly, each the contract of a function with an empty body.
ghost use Rattle.std.specs.Prelude.{◌≡◌, ◌≢◌, ℕ, List, Ok, Err};
ghost use Rattle.hic_object.specs.Parts.{Parts, IsObject, KeepsRules};
ghost use Rattle.hic_asm.specs.declared.error.AsmError.TheVariants.{OutOfMemory};
ghost use Rattle.hic_asm.specs.Assembly.{Seen, line_after, assembled};
ghost use Rattle.hic_asm.specs.LineRules.{fault_of, line_fault};
ghost use Rattle.hic_asm.specs.ObjectText.{dis_text};

/// The text of an object is assembled to that object, so no two objects have one text.
pub fn assembles_what_is_disassembled()
    ensures { (o : Parts) → IsObject o → assembled (dis_text o) ≡ Ok o }
{}

/// A line after others has exactly the fault of the first of its seven rules that it breaks.
pub fn lines_break_rules_in_order()
    ensures { (s : Seen) (bytes : List ℕ) → fault_of (line_after s bytes) ≡ line_fault s bytes }
{}

/// What is assembled keeps the rules of objects, and the first fault of a source is never want of memory.
pub fn assembles_objects()
    ensures rules { (text : List ℕ) (o : Parts) → assembled text ≡ Ok o → KeepsRules o }
    ensures fault { (text : List ℕ) → assembled text ≢ Err OutOfMemory }
{}
