//! That the halves over slots are those of the trees' meaning. Each law is the contract of a function that
//! does nothing.

ghost use Rattle.slot_passages.specs.Laws.{EntriesAgree, ExitsAgree};

/// The entry half is that of the trees' meaning.
pub fn entries_agree()
    ensures { EntriesAgree }
{}

/// The exit half is that of the trees' meaning.
pub fn exits_agree()
    ensures { ExitsAgree }
{}
