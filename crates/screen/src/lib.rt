// The screen's calls: the decoding calls with the walk also as a lent slice of step records (call.rt), what they do before the records are copied (within.rt),
// and the plain call with one record (step.rt).

#![tactic(auto)]

pub mod call;
pub mod step;
pub mod within;

pub use call::{decode_hook_steps, decode_steps};
pub use step::{StepDecoded, decode_step};
pub use steprecords::StepRecord;
