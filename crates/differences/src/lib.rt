// The mathematics of limits on differences: specs/ has limits, their laws and matrices of them, and proofs/ what
// follows from the laws. Of code there is only what every layer shares: refusals, and a number of ticks.
#![tactic(auto)]

mod fault;
mod ticks;

pub use fault::Fault;
pub use ticks::Ticks;
