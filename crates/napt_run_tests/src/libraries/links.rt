//! Nodes in a row, as they are removed and inserted before others.

ghost use Rattle.std.specs.Prelude.{◌≡◌, ◌<◌, true, length};
ghost use Rattle.napt_collections.specs.Links.{next, prev};

use napt_collections::{Links, link_before, unlink};
use std::process::Abort;
use std::test::Fail;

/// Returns whether there is such a node, and nodes before and after it.
fn is_inside(links: &[Links], node: u32) -> bool
    ensures within { result ≡ true → node < length links.now }
    ensures before { result ≡ true → prev links.now node < length links.now }
    ensures after { result ≡ true → next links.now node < length links.now }
{
    let at = node as usize;
    at < links.len()
        && (links[at].before as usize) < links.len()
        && (links[at].after as usize) < links.len()
}

/// Returns whether the two nodes are next to each other, by the links of both.
fn are_neighbours(links: &[Links], before: u32, after: u32) -> bool {
    match (links.get(before as usize), links.get(after as usize)) {
        (Some(one), Some(other)) => one.after == after && other.before == before,
        _ => false,
    }
}

/// Returns whether the links have the nodes in this order.
fn are_in_order(links: &[Links], order: &[u32]) -> bool {
    order
        .iter()
        .zip(order.iter().skip(1))
        .all(|(before, after)| are_neighbours(links, *before, *after))
}

/// Removes the node if it is in the row, or else inserts it before another one, in links and list.
fn change(
    rt: &impl Abort,
    links: &mut [Links],
    order: &mut Vec<u32>,
    node: u32,
    drawn: usize,
) -> Result<(), Fail> {
    assert!(rt; is_inside(links, node));
    if let Some(place) = order.iter().position(|other| *other == node) {
        unlink(links, node);
        order.remove(place);
        return Ok(());
    }
    assert!(rt; order.len() > 1);
    let place = 1 + drawn % (order.len() - 1);
    let after = order[place];
    assert!(rt; is_inside(links, after));
    link_before(links, node, after);
    order.insert(place, node)?;
    Ok(())
}

/// Node 0 remains first and node 1 last. 600 times, one of 20 others is removed or inserted.
#[test]
fn row_and_list_of_nodes_agree(rt: HostRuntime) -> Result<(), Fail> {
    let end = Links {
        before: 0,
        after: 1,
    };
    let mut links = vec![in rt.alloc(); end; 20]?;
    let mut order = vec![in rt.alloc(); 0, 1]?;
    let mut longest = 0;
    let mut state: u32 = 12_345;
    for _ in 0..600 {
        state = state.wrapping_mul(1_664_525).wrapping_add(1_013_904_223);
        let drawn = state >> 16;
        let (node, place) = (2 + drawn % 18, drawn as usize / 18);
        change(&rt, &mut links, &mut order, node, place)?;
        assert!(rt; are_in_order(&links, &order));
        longest = order.len().max(longest);
    }
    assert!(rt; longest > 12);
    Ok(())
}
