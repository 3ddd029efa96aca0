// What goes with a name.

/// What goes with a name.
#[derive(Clone, Copy)]
pub enum Figure<'a> {
    /// A number.
    Count(u64),
    /// A number of thousandths, which is written with three decimals: 787 as `0.787`.
    Thousandths(u64),
    /// A text. In a JSON object it is a string.
    Word(&'a str),
    /// Some numbers. In a JSON object they are an array.
    Numbers(&'a [u64]),
}
