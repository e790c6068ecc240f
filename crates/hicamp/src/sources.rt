// Sources, each read and assembled or refused.
ghost use Rattle.std.specs.Prelude.{◌≡◌, ◌≢◌, ◌≤◌, length, IfOk, IfErr, IsSome};
ghost use Rattle.std.specs.FinMap as map;
ghost use Rattle.hic_asm.specs.Assembly.{assembled};
ghost use Rattle.hic_io.specs.HostState.{Files};
ghost use Rattle.hic_object.specs.Parts.{Parts};
ghost use Rattle.hicamp.specs.Limits.{most_bytes};
ghost use Rattle.hicamp.specs.Messages.{source_text};
ghost use Rattle.hicamp.specs.Asked.{Answer, refused, asked_of_assembly, asked_of_source};
ghost use Rattle.hicamp.specs.Outcome.{Fulfils, IsEarly, Refuses, Serves, ReadsObject};

use crate::files::{FileKind, read_file};
use crate::messages::source_message;
use crate::report::report;
use crate::status::Status;
use hic_asm::{AsmError, assemble};
use hic_io::Host;
use hic_object::Object;
use std::alloc::Global;

/// The object of the source in the file, or the status where there is none.
pub(crate) fn read_source<H: Host>(
    alloc: Global,
    name: &str,
    host: &mut H,
) -> Result<Object, Status>
    ensures read { IfOk result (λ o. ReadsObject asked_of_source (H.state host.old) (H.state host.new) name.now o) }
    ensures refused { IfErr result (λ status. (next : Files → Parts → Answer)
        → Serves (H.state host.old) (H.state host.new) status (λ files. asked_of_source (map.get files name.now) (next files)) (λ files. IsSome (map.get files name.now))) }
    ensures early { IfErr result IsEarly }
{
    match read_file(alloc, FileKind::Source, name, host) {
        Ok(text) => assembled(alloc, text.as_slice(), host),
        Err(status) => Err(status),
    }
}

/// The object of this source, or the status where there is none.
fn assembled<H: Host>(alloc: Global, text: &[u8], host: &mut H) -> Result<Object, Status>
    requires { length text.now ≤ most_bytes FileKind.Source }
    ensures still { IfOk result (λ o. H.state host.new ≡ H.state host.old) }
    ensures goes_on { IfOk result (λ o. (next : Parts → Answer)
        → asked_of_assembly (assembled text.now) next ≡ next o) }
    ensures refused { IfErr result (λ status. Refuses Parts (H.state host.old) (H.state host.new) status (asked_of_assembly (assembled text.now))) }
    ensures early { IfErr result IsEarly }
{
    match assemble(alloc, text) {
        Ok(object) => Ok(object),
        Err(fault) => Err(refuse_source(fault, host)),
    }
}

/// The status of a source with this fault, which is told on the error side, or of want of memory.
fn refuse_source<H: Host>(fault: AsmError, host: &mut H) -> Status
    ensures wants { fault ≡ AsmError.OutOfMemory
        → (result ≡ Status.NoMemory) × (H.state host.new ≡ H.state host.old) }
    ensures refused { fault ≢ AsmError.OutOfMemory
        → Fulfils (H.state host.old) (H.state host.new) result (refused (source_text fault)) }
    ensures early { IsEarly result }
{
    match fault {
        AsmError::OutOfMemory => Status::NoMemory,
        _ => {
            let message = source_message(fault);
            report(host, message.as_slice(), Status::Refused)
        }
    }
}
