//! The digest of dealt records.

ghost use Rattle.std.specs.Prelude.{◌≡◌, ◌≤◌, ℕ, List, ◌++◌, length};
ghost use Rattle.std.specs.List.{flat_map};
ghost use Rattle.sha2.specs.Hashers.{Holds256};
ghost use Rattle.checkpoint.specs.Numbers.{number_bytes};
ghost use Rattle.checkpoint.specs.Digest.{header_digest, list_bytes, record_bytes};
ghost use Rattle.prefix_lattice.specs.{record_limit};

use byteorder::{BigEndian, ByteOrder};
use deal_rules::Dealt;
use prefix_lattice::{Record, RecordList};
use sha2::{Digest, Sha256};

/// The digest of dealt records under the header of their store: SHA-256 of the header's 62 bytes as they are in the
/// store, and for each shard in order the number of its records in 4 bytes and its records, each as source, destination
/// and weight in 4 bytes. Each record is hashed once where it is. It allocates no memory.
pub fn digest_of(dealt: &Dealt, header: &[u8; 62]) -> [u8; 32]
    ensures { result ≡ header_digest header.now dealt.now }
{
    let mut hasher = Sha256::new();
    hasher.update(header.as_slice());
    hash_lists(&mut hasher, dealt);
    hasher.finalize()
}

// Hashes the lists of the shards, in order.
fn hash_lists(hasher: &mut Sha256, dealt: &Dealt)
    ensures { (text : List ℕ) → Holds256 hasher.old text → Holds256 hasher.new (text ++ flat_map list_bytes dealt.now) }
{
    for shard in 0..dealt.shards() {
        hash_list(hasher, dealt.list(shard));
    }
}

// Hashes the number of records of a shard, and the records in their order.
fn hash_list(hasher: &mut Sha256, list: &RecordList)
    requires { length list.now ≤ record_limit }
    ensures { (text : List ℕ) → Holds256 hasher.old text → Holds256 hasher.new (text ++ list_bytes list.now) }
{
    hash_number(hasher, list.len() as u32);
    hash_records(hasher, list);
}

fn hash_records(hasher: &mut Sha256, list: &RecordList)
    ensures { (text : List ℕ) → Holds256 hasher.old text → Holds256 hasher.new (text ++ flat_map record_bytes list.now) }
{
    for place in 0..list.len() {
        hash_record(hasher, list.at(place));
    }
}

fn hash_record(hasher: &mut Sha256, rec: &Record)
    ensures { (text : List ℕ) → Holds256 hasher.old text → Holds256 hasher.new (text ++ record_bytes rec.now) }
{
    hash_number(hasher, rec.src);
    hash_number(hasher, rec.dst);
    hash_number(hasher, rec.weight);
}

// Hashes a number in 4 bytes, high byte first.
#[tactic(auto, unfolding(crate::specs::Numbers::number_bytes))]
fn hash_number(hasher: &mut Sha256, number: u32)
    ensures { (text : List ℕ) → Holds256 hasher.old text → Holds256 hasher.new (text ++ number_bytes 4 number) }
{
    let mut bytes = [0; 4];
    BigEndian::write_u32(&mut bytes, number);
    hasher.update(bytes.as_slice());
}
