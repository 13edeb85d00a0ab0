//! What a stack over lent memory can hold.
/// An entry names its blank, which stands wherever no entry does.
pub trait Entry: Copy {
    /// All zeros.
    const BLANK: Self;

    ghost BLANK: { Self };
}

impl Entry for u32 {
    const BLANK: u32 = 0;

    ghost BLANK = { 0 };
}
