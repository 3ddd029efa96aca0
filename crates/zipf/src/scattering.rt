// Which number has a rank.
ghost use Rattle.std.specs.Prelude.{◌≡◌, ◌≤◌, ◌<◌};
ghost use Rattle.zipf.specs.Weights.{scattered};

/// The greatest prime below 2^32. It divides no number of ranks, so no two ranks have one number.
const STRIDE: u64 = 4294967291;

/// The number below `ranks` that has this rank, by this seed: numbers that are drawn often lie scattered among the others.
pub fn scattered(ranks: u32, seed: u32, rank: u32) -> u32
    requires { rank < ranks }
    ensures number { result ≡ scattered ranks seed rank }
    ensures within { result < ranks }
{
    ((u64::from(rank) * STRIDE + u64::from(seed)) % u64::from(ranks)) as u32
}
