//! The three rules by which the program deals records to shards.

ghost use Rattle.std.specs.Prelude.{◌≡◌};
ghost use Rattle.deal_rules.specs.{IsAsked};
ghost use Rattle.deal_rules.specs.declared.deal_kind.DealKind.TheVariants.{RoundRobin, BySource, Free};
ghost use Rattle.hhh.specs.Rules.{rule_shard};

use prefix_lattice::Record;

/// Deals in turn: the index of the record, modulo the number of shards.
pub fn by_place(place: u64, rec: Record, shards: u32) -> u32
    requires { IsAsked place rec shards }
    ensures { result ≡ rule_shard RoundRobin place rec shards }
{
    (place % u64::from(shards)) as u32
}

/// Deals by the source address, so that all packets of one sender go to one shard.
pub fn by_source(place: u64, rec: Record, shards: u32) -> u32
    requires { IsAsked place rec shards }
    ensures { result ≡ rule_shard BySource place rec shards }
{
    rec.src % shards
}

/// Deals by both addresses, so that the traffic of one busy host is spread over the shards.
pub fn by_both(place: u64, rec: Record, shards: u32) -> u32
    requires { IsAsked place rec shards }
    ensures { result ≡ rule_shard Free place rec shards }
{
    (rec.src ^ rec.dst) % shards
}
