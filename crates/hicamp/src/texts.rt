// Sources to programs, and back.
ghost use Rattle.std.specs.Prelude.{◌≡◌, ◌≢◌, IsSome};
ghost use Rattle.std.specs.FinMap as map;
ghost use Rattle.hicamp.specs.Asked.{asked_of_asm, asked_of_dis};
ghost use Rattle.hicamp.specs.Outcome.{Serves};

use crate::files::read_program;
use crate::report::write_bytes;
use crate::sources::read_source;
use crate::status::Status;
use hic_asm::disassemble;
use hic_io::Host;
use std::alloc::Global;

/// Writes the program that a source is assembled to.
pub(crate) fn assemble_source<H: Host>(alloc: Global, source: &str, host: &mut H) -> Status
    ensures serves { Serves (H.state host.old) (H.state host.new) result (asked_of_asm source.now) (λ files. IsSome (map.get files source.now)) }
    ensures not_usage { result ≢ Status.Usage }
{
    let object = match read_source(alloc, source, host) {
        Ok(object) => object,
        Err(status) => return status,
    };
    match object.write(alloc) {
        Ok(bytes) => write_bytes(host, bytes.as_slice()),
        Err(_) => Status::NoMemory,
    }
}

/// Writes the text of a program.
pub(crate) fn disassemble_program<H: Host>(alloc: Global, program: &str, host: &mut H) -> Status
    ensures serves { Serves (H.state host.old) (H.state host.new) result (asked_of_dis program.now) (λ files. IsSome (map.get files program.now)) }
    ensures not_usage { result ≢ Status.Usage }
{
    let object = match read_program(alloc, program, host) {
        Ok(object) => object,
        Err(status) => return status,
    };
    match disassemble(alloc, &object) {
        Ok(text) => write_bytes(host, text.as_bytes()),
        Err(_) => Status::NoMemory,
    }
}
