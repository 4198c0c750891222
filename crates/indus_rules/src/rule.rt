//! The rules.

/// A rule of types.
#[derive(Clone, Copy, Debug, PartialEq, Eq)]
pub enum Rule {
    /// A name is declared twice, or is one of the language's own.
    NameTwice,
    /// A name stands for nothing.
    NoSuchName,
    /// A number has another width than its place wants.
    WidthDiffers,
    /// A value or a variable stands where another kind is needed.
    KindDiffers,
    /// What can't be written is assigned.
    NotWritable,
    /// An expression or a statement stands in a block that may not hold it.
    WrongBlock,
    /// A list is pushed onto while a loop walks it.
    LoopListChanged,
    /// A width, a size or a number is out of its bounds.
    BadSize,
}
