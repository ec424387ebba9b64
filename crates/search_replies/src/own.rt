// The members that a hit has from its document.
ghost use Rattle.std.specs.Prelude.{◌≡◌, map};
ghost use Rattle.search_replies.specs.Added.{added_name, owns};
ghost use Rattle.search_replies.specs.Members.{is_among};

use crate::added::Added;
use crate::names::Names;
use serde_json::{Map, Value};

/// The members of a document, and by their names which of them a hit has: those that are shown, without those whose
/// names the added ones have.
#[derive(Clone, Copy)]
pub(crate) struct Own<'a> {
    pub(crate) names: &'a Names,
    pub(crate) added: &'a [Added<'a>],
    pub(crate) members: &'a Map<String, Value>,
}

impl<'a> Own<'a> {
    /// Whether the hit has a member of this name from its document.
    pub(crate) fn has(&self, name: &str) -> bool
        ensures { result ≡ owns self.now.names.now self.now.added.now name.now }
    {
        self.names.has(name) && !is_added(self.added, name)
    }
}

fn is_added(added: &[Added], name: &str) -> bool
    ensures { result ≡ is_among (map added_name added.now) name.now }
{
    for one in added {
        if one.name() == name {
            return true;
        }
    }
    false
}
