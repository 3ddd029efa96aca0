// How a value is stored.

/// How a value is stored: the commands `set`, `add`, `replace`, `append`, `prepend` and `cas`.
#[derive(Clone, Copy, Debug)]
pub enum StoreCommand {
    /// Whatever the key has.
    Set,
    /// Only if the key has no value.
    Add,
    /// Only if the key has a value.
    Replace,
    /// After the value that the key has.
    Append,
    /// Before the value that the key has.
    Prepend,
    /// Only if the key's value still has the unique number that the line names.
    Cas,
}
