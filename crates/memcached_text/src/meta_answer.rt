// What a server answers to a meta command.

/// What a server answers to a meta command.
#[derive(Clone, Copy)]
pub struct MetaAnswer<'a> {
    /// How it went.
    pub status: MetaStatus<'a>,
    /// The flags of the request as they stand in its line: what they ask for is returned in their order.
    pub flags: &'a [u8],
    /// What can be returned.
    pub fields: MetaFields<'a>,
    /// What is said of the item unasked.
    pub marks: MetaMarks,
}

/// How a meta command went.
#[derive(Clone, Copy)]
pub enum MetaStatus<'a> {
    /// `HD`: it was done.
    Header,
    /// `VA`: it was done, and this is the value.
    Value(&'a [u8]),
    /// `EN`: the key has no value, for `mg` and `me`.
    Miss,
    /// `NF`: the key has no value.
    NotFound,
    /// `NS`: the mode's condition does not hold.
    NotStored,
    /// `EX`: the value is not that of the cas unique number.
    Exists,
}

/// What can be returned of a request and its item. What is `None` is not returned, though it was asked for.
#[derive(Clone, Copy)]
pub struct MetaFields<'a> {
    /// `k`: the key as it stands in the line.
    pub key: &'a [u8],
    /// Whether the key is in base64; then `b` follows it.
    pub is_base64: bool,
    /// `c`: the cas unique number.
    pub cas: Option<u64>,
    /// `f`: the number that the client keeps with the value.
    pub flags: Option<u32>,
    /// `s`: the bytes of the value.
    pub size: Option<u32>,
    /// `t`: how long it lives.
    pub ttl: Option<Ttl>,
    /// `h`: whether it was hit before.
    pub was_hit: Option<bool>,
    /// `l`: the seconds since it was last used.
    pub last_used: Option<u32>,
}

/// How long an item lives.
#[derive(Clone, Copy)]
pub enum Ttl {
    /// It does not expire: -1.
    Unlimited,
    /// For a number of seconds.
    Seconds(u32),
}

/// What is said of an item unasked.
#[derive(Clone, Copy)]
pub struct MetaMarks {
    /// `Z`: another client was told to bring a new value.
    pub is_awaited: bool,
    /// `X`: the value is stale.
    pub is_stale: bool,
    /// `W`: this client is to bring a new value.
    pub has_won: bool,
}
