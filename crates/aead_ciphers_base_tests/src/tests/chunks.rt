//! Tests of `polyfill::slice`: slices as whole blocks.

ghost use Rattle.std.specs.Prelude.{◌<◌};

use crate::tests::checks::{equal, holds, same};
use crate::tests::items::{Item, hold};
use aead_ciphers_base::polyfill::slice::{AsChunks, as_chunks, as_chunks_mut};
use std::process::Abort;
use std::test::Fail;

/// Asserts that a slice is split into `blocks` blocks of `N` items, and `rest` items after them.
fn splits<const N: usize>(rt: &impl Abort, items: &[u8], blocks: usize, rest: usize)
    requires { 0 < N }
{
    let (whole, after) = as_chunks::<_, N>(items);
    equal(rt, whole.len(), blocks, "the number of blocks");
    equal(rt, whole.is_empty(), blocks == 0, "no block");
    equal(rt, after.len(), rest, "the number of items after them");
}

#[test]
fn whole_blocks_and_the_rest(rt: HostRuntime) {
    splits::<4>(&rt, &[0; 10], 2, 2);
    splits::<16>(&rt, &[0; 15], 0, 15);
    splits::<16>(&rt, &[], 0, 0);
}

#[test]
fn blocks_of_eight_as_blocks_of_four(rt: HostRuntime) {
    let items = [1u8, 2, 3, 4, 5, 6, 7, 8];
    let four = AsChunks::<_, 4>::from(AsChunks::<_, 8>::from(&items));
    same(&rt, four.as_flattened(), &items, "the items");
    let mut blocks = four.into_iter();
    for wanted in [Some(&[1u8, 2, 3, 4]), Some(&[5, 6, 7, 8]), None, None] {
        equal(&rt, blocks.next(), wanted, "a block or none");
    }
}

#[test]
fn blocks_of_no_item_are_none(rt: HostRuntime) {
    let view = AsChunks::<u8, 0>::from_ref(&[]);
    equal(&rt, (view.len(), view.is_empty()), (0, true), "no block");
    holds(&rt, view.into_iter().next().is_none(), "a walk over none");
}

#[test]
fn blocks_of_items_that_are_not_copied(rt: HostRuntime) {
    let items = [1, 2, 3, 4, 5].map(Item);
    let (blocks, rest) = as_chunks::<_, 2>(&items);
    assert_eq!(rt; blocks.len(), 2);
    hold(&rt, &blocks[1], &[3, 4]);
    hold(&rt, rest, &[5]);
    let mut walk = blocks.into_iter();
    for wanted in [[1, 2], [3, 4]] {
        match walk.next() {
            Some(block) => hold(&rt, block, &wanted),
            None => panic!(rt; "no block"),
        }
    }
    holds(&rt, walk.next().is_none(), "no further block");
}

#[test]
fn blocks_are_split(rt: HostRuntime) {
    let mut items = [1, 2, 3, 4, 5, 6].map(Item);
    let (mut view, rest) = as_chunks_mut::<_, 2>(&mut items);
    holds(&rt, rest.is_empty(), "nothing after them");
    assert_eq!(rt; view.as_ref().len(), 3);
    let (before, after) = view.split_at_mut(2);
    hold(&rt, before.as_flattened(), &[1, 2, 3, 4]);
    hold(&rt, after.as_flattened(), &[5, 6]);
}

#[test]
fn groups_of_blocks_and_a_last_of_fewer(rt: HostRuntime) -> Result<(), Fail> {
    let mut items = [0u8; 14];
    let (mut view, _) = as_chunks_mut::<_, 2>(&mut items);
    let mut groups = view.chunks_mut::<3>();
    for len in [3, 3, 1] {
        let group = groups.next().ok_or("no group")?;
        equal(&rt, group.as_ref().len(), len, "the blocks of a group");
    }
    holds(&rt, groups.next().is_none(), "no further group");
    Ok(())
}

#[test]
fn writes_reach_the_slice(rt: HostRuntime) {
    let mut items = [1, 2, 3, 4, 5, 6, 7, 8].map(Item);
    let (mut view, _) = as_chunks_mut::<_, 2>(&mut items);
    for (mut group, mark) in view.chunks_mut::<3>().zip([10, 11]) {
        if let Some(first) = group.as_flattened_mut().first_mut() {
            *first = Item(mark);
        }
        let mut part = group.as_mut();
        part.as_flattened_mut().reverse();
    }
    hold(
        &rt,
        AsChunks::from(&view).as_flattened(),
        &[6, 5, 4, 3, 2, 10, 8, 11],
    );
    hold(&rt, &items, &[6, 5, 4, 3, 2, 10, 8, 11]);
}
