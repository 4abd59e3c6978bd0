//! The numbers of the prefixes that a prefix is under, one at each node that keeps no more than it.

ghost use Rattle.std.specs.Prelude.{◌≡◌, IfOk};
ghost use Rattle.prefix_lattice.specs.{IsPrefix, prefix_code};
ghost use Rattle.conditioned_bounds.specs.Uppers.{AreUpperCodes};

use prefix_lattice::{
    Grain, Node, Prefix, keys_are_of_their_node, prefixes_are_ordered,
    prefixes_cover_their_own_addresses, uppers_are_above,
};
use std::alloc::{AllocError, Global};

/// The number of a prefix of a grain, by its node and then by its key. No two prefixes of the grain share one.
pub(crate) fn code_of(grain: Grain, prefix: &Prefix) -> u128
    requires { IsPrefix grain prefix.now }
    ensures { result ≡ prefix_code grain prefix.now }
{
    let node = prefix.node(grain).unwrap();
    u128::from(node.index()) << 64 | u128::from(prefix.key())
}

/// The numbers of all prefixes of a grain that this prefix is strictly under, each once.
pub(crate) fn codes_above(
    alloc: Global,
    grain: Grain,
    prefix: &Prefix,
) -> Result<Vec<u128>, AllocError>
    requires { IsPrefix grain prefix.now }
    ensures { IfOk result (λ codes. AreUpperCodes grain prefix.now codes.items) }
{
    prefixes_are_ordered();
    keys_are_of_their_node();
    uppers_are_above();
    prefixes_cover_their_own_addresses();
    let own = prefix.node(grain).unwrap();
    let mut codes = Vec::with_capacity(alloc, usize::from(grain.nodes()))?;
    for place in 0..grain.nodes() {
        let node = Node::from_index(grain, place).unwrap();
        if node == own {
            continue;
        }
        if let Some(above) = prefix.upper(node) {
            codes.push(code_of(grain, &above))?;
        }
    }
    Ok(codes)
}
