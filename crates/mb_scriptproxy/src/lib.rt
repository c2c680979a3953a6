//! The steps of script-made Proxies (ECMA-262, 10.5, 28.2): their methods with the traps, what makes a Proxy and what
//! revokes one.
#![tactic(auto)]

mod absent;
mod acting;
mod errors;
mod extensions;
mod giving;
mod keys;
mod making;
mod performing;
mod properties;
mod prototypes;
mod resuming;
mod revoking;
mod said;
mod step;
mod traps;

pub use performing::trap_key;
pub use step::step_scriptproxy;
pub use traps::trap_called;
