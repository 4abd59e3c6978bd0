//! Prefixes in their order, found by node and key.

ghost use Rattle.std.specs.Prelude.{◌≡◌, ◌+◌, ◌<◌, ◌++◌, ◌∷◌, [], ◌↔◌, All, Contains, IsTrue, OnOk, OnErr, IfOk};
ghost use Rattle.std.specs.Prelude.{length, slice_get, Some};
ghost use Rattle.prefix_lattice.specs.{IsPrefix, finest_grain, node_of_prefix};
ghost use Rattle.conditioned_bounds.specs.Members.{member_limit};

use crate::uppers::code_of;
use prefix_lattice::{
    Grain, Node, Prefix, Prefixes, keys_are_of_their_node, prefixes_cover_their_own_addresses,
};
use std::alloc::{AllocError, Global};
use std::collections::BTreeSet;
use std::marker::Model;

/// A list of prefixes, the numbers of all of them, and the nodes that have one. All are taken as prefixes of the finest
/// grain, so prefixes of each grain can be members.
#[derive(Drop)]
pub(crate) struct Members {
    prefixes: Vec<Prefix>,
    codes: BTreeSet<u128>,
    nodes: Vec<Node>,
}

impl Model for Members {
    ghost use Rattle.std.specs.Prelude.{List};
    ghost use Rattle.prefix_lattice.specs.{PrefixValue};
    ghost use Rattle.conditioned_bounds.specs.Members.{AreMembers};

    ghost Value = { List PrefixValue };

    ghost view = { λ m. m.prefixes.items };

    ghost invariant = { λ m. AreMembers m.prefixes.items m.codes m.nodes.items };
}

impl Members {
    /// No members. It allocates no memory.
    pub(crate) fn new(alloc: Global) -> Members
        ensures { result ≡ [] }
    {
        Members {
            prefixes: Vec::new(alloc),
            codes: BTreeSet::new(alloc),
            nodes: Vec::new(alloc),
        }
    }

    /// These prefixes, of which there are fewer than 2^24.
    pub(crate) fn of(alloc: Global, prefixes: &Prefixes) -> Result<Members, AllocError>
        requires { length prefixes.now < member_limit }
        ensures { IfOk result (λ members. members ≡ prefixes.now) }
    {
        let mut members = Members::new(alloc);
        for prefix in prefixes.as_slice() {
            members.push(prefix)?;
        }
        Ok(members)
    }

    /// Appends a prefix. After an `Err` the members are as before.
    pub(crate) fn push(&mut self, prefix: &Prefix) -> Result<(), AllocError>
        requires { length self.old + 1 < member_limit }
        ensures ok { OnOk result (self.new ≡ self.old ++ prefix.now ∷ []) }
        ensures err { OnErr result (self.new ≡ self.old) }
    {
        keys_are_of_their_node();
        prefixes_cover_their_own_addresses();
        self.prefixes.reserve(1)?;
        self.nodes.reserve(1)?;
        prefix.keeps_leading_bits();
        self.codes.insert(code_of(Grain::Nibble, prefix))?;
        let node = member_node(prefix);
        if !self.nodes.contains(&node) {
            self.nodes.push(node)?;
        }
        self.prefixes.push(*prefix)?;
        Ok(())
    }

    /// Whether a prefix is a member.
    pub(crate) fn has(&self, prefix: &Prefix) -> bool
        ensures { IsTrue result ↔ Contains self.now prefix.now }
    {
        prefix.keeps_leading_bits();
        self.codes.contains(&code_of(Grain::Nibble, prefix))
    }

    /// The nodes that have a member.
    pub(crate) fn nodes(&self) -> &[Node]
        ensures have { All (λ member. Contains result.now (node_of_prefix finest_grain member)) self.now }
        ensures finest { All (λ node. node.grain ≡ finest_grain) result.now }
    {
        self.nodes.as_slice()
    }

    /// How many members there are, fewer than 2^24.
    pub(crate) fn len(&self) -> usize
        ensures length { result ≡ length self.now }
        ensures few { result < member_limit }
    {
        self.prefixes.len()
    }

    /// The members in their order.
    pub(crate) fn as_slice(&self) -> &[Prefix]
        ensures value { result.now ≡ self.now }
        ensures few { length self.now < member_limit }
    {
        self.prefixes.as_slice()
    }
}

/// The node of a prefix among those of the finest grain.
pub(crate) fn member_node(prefix: &Prefix) -> Node
    ensures { result ≡ node_of_prefix finest_grain prefix.now }
{
    prefix.keeps_leading_bits();
    prefix.node(Grain::Nibble).unwrap()
}
