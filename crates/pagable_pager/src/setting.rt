//! The environment and session of a pager, owned or shared.

ghost use Rattle.pagable_pager.specs.Setting.{environment_of};
ghost use Rattle.std.specs.Prelude.{◌≡◌};

use pagable_codec::Env;
use pagable_core::Setting;
use std::sync::Arc;

/// Environment and session of a pager: its own, or shared with code that uses them without the
/// pager, as threads do outside of its lock.
#[derive(Drop)]
pub(crate) enum PagerSetting<E: Env> {
    Owned(Setting<E>),
    Shared(Arc<Setting<E>>),
}

impl<E: Env> PagerSetting<E> {
    /// Lends the setting.
    pub(crate) fn get(&self) -> &Setting<E>
        ensures { result.now.env ≡ environment_of self.now }
    {
        match self {
            PagerSetting::Owned(setting) => setting,
            PagerSetting::Shared(setting) => setting.as_ref(),
        }
    }
}
