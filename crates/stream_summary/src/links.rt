//! Cells in a row, each of which knows the one that follows it and the one before it in an order of their own.

ghost use Rattle.std.specs.Prelude.{◌≡◌, ◌^◌, ◌<◌, ◌≤◌, length, slice_index, slice_set, vec_len};
ghost use Rattle.stream_summary.specs.Links.{befores, nexts};

/// Where a cell leads, both ways.
#[derive(Clone, Copy)]
pub(crate) struct Link {
    /// The cell that follows.
    pub next: u16,
    /// The cell before.
    pub before: u16,
}

/// The cell that follows this one.
pub(crate) fn next_of(links: &[Link], cell: usize) -> usize
    requires { cell < length links.now }
    ensures { result ≡ slice_index (nexts links.now) cell }
{
    usize::from(links[cell].next)
}

/// The cell before this one.
pub(crate) fn before_of(links: &[Link], cell: usize) -> usize
    requires { cell < length links.now }
    ensures { result ≡ slice_index (befores links.now) cell }
{
    usize::from(links[cell].before)
}

/// Makes one cell follow another.
pub(crate) fn join(links: &mut Vec<Link>, cell: usize, next: usize)
    requires cell { cell < vec_len links.old }
    requires next { next < vec_len links.old }
    requires few { vec_len links.old ≤ 2 ^ 16 }
    ensures nexts { nexts links.new.items ≡ slice_set (nexts links.old.items) cell next }
    ensures befores { befores links.new.items ≡ slice_set (befores links.old.items) next cell }
{
    links[cell].next = next as u16;
    links[next].before = cell as u16;
}
