//! The settings of a share.

ghost use Rattle.std.specs.Prelude.{◌≡◌};

use dmap_tags::Text;
use std::marker::Model;

/// The settings that a share is opened with and never changes: its name, and `keep`, the number of revisions in its
/// delta window.
pub struct Settings {
    name: Text,
    keep: u32,
}

impl Drop for Settings {
    fn drop(self) {
        let Settings { name: _, keep: _ } = self;
    }
}

impl Model for Settings {
    ghost use Rattle.share_replies.specs.Settings.{Settings};

    ghost Value = { Settings };

    ghost view = { λ a. record { name = a.name; keep = a.keep } };
}

impl Settings {
    pub(crate) fn new(name: Text, keep: u32) -> Settings
        ensures { result ≡ record { name = name; keep = keep } }
    {
        Settings { name, keep }
    }

    pub fn name(&self) -> &Text
        ensures { result.now ≡ self.now.name }
    {
        &self.name
    }

    pub fn keep(&self) -> u32
        ensures { result ≡ self.now.keep }
    {
        self.keep
    }
}
