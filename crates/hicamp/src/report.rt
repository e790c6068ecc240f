// What is written: messages on the error side, and bytes on the output.
ghost use Rattle.std.specs.Prelude.{◌≡◌, ◌≢◌, ◌⊎◌, [], None};
ghost use Rattle.hicamp.specs.Messages.{end_message, end_status};
ghost use Rattle.hicamp.specs.Asked.{answer_bytes};
ghost use Rattle.hicamp.specs.Outcome.{Fulfils};

use crate::messages::trap_message;
use crate::status::Status;
use hic_io::{Host, Side, write_all};
use hic_plain::End;

/// Writes a message on the error side, and gives the status.
pub fn report<H: Host>(host: &mut H, message: &[u8], status: Status) -> Status
    requires { (status ≢ Status.ReadFault) × (status ≢ Status.WriteFault) × (status ≢ Status.NoMemory) }
    ensures fulfils { Fulfils (H.state host.old) (H.state host.new) result (record { out = []; err = message.now; status = status; last = None }) }
    ensures status { (result ≡ status) ⊎ (result ≡ Status.WriteFault) }
{
    match write_all(host, Side::Error, message) {
        Ok(()) => status,
        Err(_) => Status::WriteFault,
    }
}

/// Writes bytes on the output, and gives the status.
pub fn write_bytes<H: Host>(host: &mut H, bytes: &[u8]) -> Status
    ensures fulfils { Fulfils (H.state host.old) (H.state host.new) result (answer_bytes bytes.now) }
    ensures status { (result ≡ Status.Done) ⊎ (result ≡ Status.WriteFault) }
{
    match write_all(host, Side::Output, bytes) {
        Ok(()) => Status::Done,
        Err(_) => Status::WriteFault,
    }
}

/// Tells how a run ended, and gives its status.
pub fn report_end<H: Host>(host: &mut H, end: End) -> Status
    ensures fulfils { Fulfils (H.state host.old) (H.state host.new) result (record { out = []; err = end_message end; status = end_status end; last = None }) }
    ensures status { (result ≡ end_status end) ⊎ (result ≡ Status.WriteFault) }
{
    match end {
        End::Halted => Status::Done,
        End::Budget => report(host, b"budget\n", Status::Budget),
        End::Trapped { trap, task, pc } => {
            let message = trap_message(trap, task, pc);
            report(host, message.as_slice(), Status::Trapped)
        }
    }
}
