//! How long the files of levels are.

ghost use Rattle.std.specs.Prelude.{◌≡◌, ◌≤◌, ◌<◌, ◌^◌, map, length};
ghost use Rattle.bucket_levels.specs.Levels.{pair_of};
ghost use Rattle.bucket_levels.specs.Size as spec;

use crate::pair::LevelPair;

/// How many bytes the two files of a level have.
fn pair_size(pair: &LevelPair) -> u128
    ensures size { result ≡ spec.pair_size (pair_of pair.now) }
    ensures fits { result < 2 ^ 65 }
{
    pair.curr.bytes().len() as u128 + pair.snap.bytes().len() as u128
}

/// How many bytes the files of at most eleven levels have.
pub fn file_total(pairs: &[LevelPair]) -> u128
    requires { length pairs.now ≤ 11 }
    ensures { result ≡ spec.file_total (map pair_of pairs.now) }
{
    let mut total = 0u128;
    for pair in pairs {
        total += pair_size(pair);
    }
    total
}
