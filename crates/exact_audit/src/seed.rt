//! The seed of an audit's look-ups.

use deal_rules::Dealt;
use hhh_report::Line;
use prefix_lattice::Record;
use sha2::{Digest, Sha256};
use std::hash::{BuildHasher, FoldHasher, Hasher};

/// What the keys of an audit are hashed with. It comes from the digest of all that is audited, so nobody can make a
/// capture or a text whose keys share their hashes: to change a key is to change the seed. No verdict depends on it.
#[derive(Clone, Copy)]
pub(crate) struct Seed {
    hasher: FoldHasher,
}

impl BuildHasher for Seed {
    type Hasher = FoldHasher;

    ghost build_hasher = { λ seed. seed.hasher };

    fn build_hasher(&self) -> FoldHasher {
        self.hasher
    }
}

impl Seed {
    /// The seed of an audit of these lines by these records. It costs one pass over both.
    pub(crate) fn of(dealt: &Dealt, lines: &[Line]) -> Seed {
        let mut digest = Sha256::new();
        for line in lines {
            hash_line(&mut digest, line);
        }
        for shard in 0..dealt.shards() {
            hash_records(&mut digest, dealt.list(shard).as_slice());
        }
        let mut hasher = FoldHasher::default();
        hasher.write(&digest.finalize());
        Seed { hasher }
    }
}

fn hash_line(digest: &mut Sha256, line: &Line) {
    digest.update(line.prefix.key().to_le_bytes().as_slice());
    digest.update([line.prefix.source_bits(), line.prefix.dest_bits()].as_slice());
}

fn hash_records(digest: &mut Sha256, records: &[Record]) {
    for rec in records {
        let addresses = u64::from(rec.src) << 32 | u64::from(rec.dst);
        digest.update(addresses.to_le_bytes().as_slice());
        digest.update(rec.weight.to_le_bytes().as_slice());
    }
}
