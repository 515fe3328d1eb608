//! The start of a run, and its setting: all that it needs in addition to its devices.
ghost use Rattle.napt_rules.specs.Prelude.{TakesState};

use napt_config::Config;
use napt_rules::State;
use std::alloc::Global;
use std::sync::Arc;

/// A configuration, and the state from which a run continues.
#[derive(Clone, Copy)]
pub struct Start<'a> {
    pub config: &'a Config,
    /// Its redirects and its expired bindings are ignored.
    pub state: &'a State,
}

/// The setting of a run: all that it needs in addition to its devices.
#[derive(Drop)]
pub struct RunSetting<'a, 'b, T, G> {
    pub(crate) rt: &'a T,
    pub(crate) alloc: Global,
    pub(crate) start: Start<'b>,
    pub(crate) gate: Arc<G>,
    ghost is_taken: { TakesState start.config.now start.state.now },
}
