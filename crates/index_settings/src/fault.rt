use search_base::{Fault, Word};

/// Why a patch is refused. A member of `faceting` or `pagination` is named with these before it: `faceting.x`.
#[derive(Debug, Drop)]
pub enum SettingsRefusal {
    /// The settings have no member of this name.
    UnknownMember { member: Word },
    /// The member's value has not its shape, or passes a limit. The name is empty where the patch is no object.
    WrongShape { member: Word },
    /// A text of the ranking rules is no rule.
    BadRankingRule { text: Word },
}

/// Why settings are not patched: what `SettingsRefusal` says, or want of memory.
pub type SettingsFault = Fault<SettingsRefusal>;
