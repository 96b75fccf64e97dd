//! A run: a rig is fitted, a new volume of a mode is made on it, and a trace is run over it, printed or not.
//!
//! The programs rely on the clauses of `replay_form_with`, `replay_many_with`, `gen_with`, `inspect_with` and `cost_with`,
//! over any `Setup`, on `status_of`, and on `default_options`. A sweep relies on those of `replay_lines` and `count_lines`,
//! which run lines that are held.
#![tactic(auto)]

mod beginning;
mod costing;
mod counting;
mod defaults;
mod ending;
mod holding;
mod inspecting;
mod making;
mod replaying;
mod reporting;
mod setup;

pub use costing::{Cost, cost_with};
pub use counting::count_lines;
pub use defaults::default_options;
pub use ending::status_of;
pub use holding::replay_lines;
pub use inspecting::inspect_with;
pub use making::gen_with;
pub use replaying::{replay_form_with, replay_many_with, replay_with};
pub use setup::Setup;
