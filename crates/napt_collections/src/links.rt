//! Nodes in a row, each linked to the node before it and to the node after it.
//!
//! The first and the last node of a row are never unlinked, so all others have neighbours.

ghost use Rattle.std.specs.Prelude.{◌≡◌, ℕ, ◌==◌, ◌<◌, cond, length};
ghost use Rattle.napt_collections.specs.Links.{next, prev};

/// The indices of the nodes before and after a node.
#[derive(Clone, Copy)]
pub struct Links {
    pub before: u32,
    pub after: u32,
}

/// Sets the node after a node.
fn set_after(links: &mut [Links], node: u32, after: u32)
    requires { node < length links.old }
    ensures nexts { (x : ℕ) → next links.new x ≡ cond (x == node) after (next links.old x) }
    ensures prevs { (x : ℕ) → prev links.new x ≡ prev links.old x }
{
    let before = links[node as usize].before;
    links[node as usize] = Links { before, after };
}

/// Sets the node before a node.
fn set_before(links: &mut [Links], node: u32, before: u32)
    requires { node < length links.old }
    ensures nexts { (x : ℕ) → next links.new x ≡ next links.old x }
    ensures prevs { (x : ℕ) → prev links.new x ≡ cond (x == node) before (prev links.old x) }
{
    let after = links[node as usize].after;
    links[node as usize] = Links { before, after };
}

/// Removes a node from its row.
pub fn unlink(links: &mut [Links], node: u32)
    requires within { node < length links.old }
    requires before { prev links.old node < length links.old }
    requires after { next links.old node < length links.old }
    ensures nexts { (x : ℕ) → next links.new x
        ≡ cond (x == prev links.old node) (next links.old node) (next links.old x) }
    ensures prevs { (x : ℕ) → prev links.new x
        ≡ cond (x == next links.old node) (prev links.old node) (prev links.old x) }
{
    let Links { before, after } = links[node as usize];
    set_after(links, before, after);
    set_before(links, after, before);
}

/// Inserts a node into the row of `after`, directly before it.
pub fn link_before(links: &mut [Links], node: u32, after: u32)
    requires within { node < length links.old }
    requires after { after < length links.old }
    requires before { prev links.old after < length links.old }
    ensures nexts { (x : ℕ) → next links.new x
        ≡ cond (x == node) after (cond (x == prev links.old after) node (next links.old x)) }
    ensures prevs { (x : ℕ) → prev links.new x
        ≡ cond (x == node) (prev links.old after) (cond (x == after) node (prev links.old x)) }
{
    let before = links[after as usize].before;
    set_after(links, before, node);
    set_before(links, after, node);
    links[node as usize] = Links { before, after };
}
