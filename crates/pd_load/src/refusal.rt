//! Why sources are refused.
use pd_sections::Refusal;

/// Why a source, an export or a context is refused.
#[derive(Clone, Copy, PartialEq, Eq, Debug)]
pub enum LoadCause {
    /// A token or the grammar: the rule and the byte.
    Spelling(Refusal),
    /// The export of this number names no item of its source.
    NoSuchItem { export: u32 },
    /// The export of this number has the name of an earlier one.
    DoubledExport { export: u32 },
    /// The context of this number names no entry of its source.
    NoSuchEntry { context: u32 },
    /// The bytes aren't UTF-8; `at` is the length of the longest prefix that is UTF-8.
    NotUtf8 { at: u32 },
}

/// A refused source, or the source that a refused export or context names, by its number in the plan; and the cause.
#[derive(Clone, Copy, PartialEq, Eq, Debug)]
pub struct LoadRefusal {
    pub source: u32,
    pub cause: LoadCause,
}
