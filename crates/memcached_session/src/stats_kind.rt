// Which stats a client asks for.
ghost use Rattle.std.specs.Prelude.{◌≡◌, ◌||◌};
ghost use Rattle.memcached_session.specs.Wanting.{detail_of, kind_of, number_of_kind};

/// Which stats a client asks for.
#[derive(Clone, Copy)]
pub enum StatsKind {
    /// `stats`.
    General,
    /// `stats settings`.
    Settings,
    /// `stats conns`.
    Conns,
    /// `stats items`.
    Items,
    /// `stats slabs`.
    Slabs,
    /// `stats sizes`.
    Sizes,
    /// `stats reset`: the counts are set to 0.
    Reset,
    /// `stats cachedump ..` and `stats detail dump`: nothing is listed.
    Dump,
    /// `stats detail on` and `stats detail off`: nothing is counted by prefix, so nothing changes.
    Detail,
    /// `stats detail` with another word, or none.
    WrongDetail,
    /// Any other word.
    Unknown,
}

impl StatsKind {
    /// The kind that an argument of `stats` names, with the word after it.
    pub fn of(argument: &[u8], further: &[u8]) -> StatsKind
        ensures { result ≡ kind_of argument.now further.now }
    {
        if argument.is_empty() {
            StatsKind::General
        } else if argument == b"settings".as_slice() {
            StatsKind::Settings
        } else if argument == b"conns".as_slice() {
            StatsKind::Conns
        } else if argument == b"items".as_slice() {
            StatsKind::Items
        } else if argument == b"slabs".as_slice() {
            StatsKind::Slabs
        } else if argument == b"sizes".as_slice() {
            StatsKind::Sizes
        } else if argument == b"reset".as_slice() {
            StatsKind::Reset
        } else if argument == b"cachedump".as_slice() {
            StatsKind::Dump
        } else if argument == b"detail".as_slice() {
            StatsKind::of_detail(further)
        } else {
            StatsKind::Unknown
        }
    }

    // The kind of a `stats detail`, by the word after it.
    fn of_detail(word: &[u8]) -> StatsKind
        ensures { result ≡ detail_of word.now }
    {
        if word == b"on".as_slice() || word == b"off".as_slice() {
            StatsKind::Detail
        } else if word == b"dump".as_slice() {
            StatsKind::Dump
        } else {
            StatsKind::WrongDetail
        }
    }

    /// The number by which C knows it.
    pub fn number(self) -> u32
        ensures { result ≡ number_of_kind self }
    {
        match self {
            StatsKind::General => 0,
            StatsKind::Settings => 1,
            StatsKind::Conns => 2,
            StatsKind::Items => 3,
            StatsKind::Slabs => 4,
            StatsKind::Sizes => 5,
            StatsKind::Reset => 6,
            StatsKind::Unknown => 7,
            StatsKind::Dump => 8,
            StatsKind::Detail => 9,
            StatsKind::WrongDetail => 10,
        }
    }
}
