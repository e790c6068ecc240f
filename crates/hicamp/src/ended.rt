// What the program leaves.

use crate::status::Status;
use hic_machine::Machine;
use hic_word::WIDTH;
use line_store::BucketStore;
use std::sync::ledger::Ledger;

/// How a run of the program ends, with the machine as it left it, where it came to a run of one and told all of it.
#[derive(Drop)]
pub struct Ended<K: Ledger> {
    pub status: Status,
    pub last: Option<Machine<BucketStore<WIDTH, K>>>,
}
